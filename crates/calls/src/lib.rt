// A script's lines, run: its calls are made on a table, and shown. The settings and the table stay apart: each clause says of the one that it is read,
// of the other what is left.
#![tactic(auto)]

mod collect;
mod given;
pub mod make;
pub mod run;
mod told;
