// Lines over borrowed memory.
#![tactic(auto)]

mod capacity;
mod character;
mod checks;
pub mod packed_line;
pub mod word_line;
