// A record's report, composed, and portions of it.
#![tactic(auto)]

pub mod portion;
pub mod record;
