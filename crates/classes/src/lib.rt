// The class table; whom a change is for, and what it does to one record: 01, "Changes".
#![tactic(auto)]

pub mod class;
pub mod event;
pub mod firmware;
pub mod record;
