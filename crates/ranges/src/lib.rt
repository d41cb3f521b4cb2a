// Ranges of pages, of a record or of a report, and the MMIO reporting offset that moves them.
#![tactic(auto)]

pub mod offset;
pub mod range;
