// Whether a report is accepted, by the reader and by the writer: their numbers, in 01's order. Nothing is written.
#![tactic(auto)]

pub mod content;
pub mod read;
pub mod write;
