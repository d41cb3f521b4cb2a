// The C interface: thin exported functions over the proved crates. c/tdisp.h declares them.
#![tactic(auto)]

mod call;
mod reports;
