// What lock, start and stop do to the record that a request names, and the reply they get.
// The reply's least length and the rules of a record that is written stay clauses: a struct over a `&mut` would have to say, at each function, that it still
// holds the same reference, and a record half locked breaks its rules.
#![tactic(auto)]

pub mod lock;
pub mod start;
