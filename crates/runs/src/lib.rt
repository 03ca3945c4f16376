// Drivers that make any list of calls and give every answer; their contracts are the laws over whole runs.
#![tactic(auto)]

mod driving;
pub mod ends;
pub mod lent;
pub mod links;
pub mod refusal;
mod shown;
pub mod whole;
