// What each request gets: the questions answered here, lock, start and stop passed on.
// The exact length stays a clause: lock, start and report each ask a length of their own of a plain message, so a second type of message would be taken apart
// where it arrives. The reply's least length stays one as in `locks`.
#![tactic(auto)]

mod get;
pub mod serve;
