// What the card shows: text, names, a reply's fields, a report's, states. What prints returns how much it showed, since no contract can
// speak of what leaves the program; what has a form of its own states its text.
#![tactic(auto)]

mod field;
pub mod form;
pub mod names;
pub mod reply;
pub mod report;
pub mod say;
pub mod states;
