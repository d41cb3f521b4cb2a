// Whether a table keeps the rules of document 01, and where in it an interface's record stands.
#![tactic(auto)]

pub mod find;
pub mod identity;
pub mod judge;
