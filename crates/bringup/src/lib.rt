// Bringing up a drive: signals, then speed negotiation windows.
#![tactic(auto)]

mod detector;
pub mod end;
mod rate;
pub mod signal;
