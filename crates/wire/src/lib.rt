// The only code that puts bytes together or takes them apart: every field wider than a byte is low byte first.
#![tactic(auto)]

pub mod copy;
pub mod identity;
pub mod message;
pub mod number;
pub mod record;
pub mod same;
pub mod zero;
