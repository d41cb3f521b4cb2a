// Interface reports: read and written.
#![tactic(auto)]

pub mod crossing;
pub mod fields;
pub mod put;
pub mod read;
pub mod write;
