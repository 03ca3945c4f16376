// Taps hand out bits one by one, and lines are taps that can also be written; a recording is a tap over bytes that were kept.
#![tactic(auto)]

pub mod bits;
mod record;
pub mod recording;
pub mod refusal;
pub mod ring;
pub mod tap;
