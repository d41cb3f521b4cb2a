// Changes and the firmware question: 01, "Changes".
#![tactic(auto)]

pub mod event;
pub mod firmware;
mod record;
pub mod write;
