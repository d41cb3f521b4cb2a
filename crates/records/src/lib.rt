// Whether a record keeps the rules of document 01.
#![tactic(auto)]

pub mod lock;
pub mod record;
