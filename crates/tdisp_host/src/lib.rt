// The C interface for hosts: thin exported functions over the proved crates. c/tdisp_host.h declares them.
#![tactic(auto)]

mod collect;
mod reports;
