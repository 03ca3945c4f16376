// The link: dwords, the sender that puts them on a line, and the receiver that finds them in the bits of a tap.
#![tactic(auto)]

pub mod dword;
pub mod heard;
mod reading;
pub mod receiver;
pub mod sender;
mod state;
