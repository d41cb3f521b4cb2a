// What becomes of a record: locked, running, cleared.
#![tactic(auto)]

pub mod record;
