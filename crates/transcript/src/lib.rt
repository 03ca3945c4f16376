// What is called on a link and what it answers.
#![tactic(auto)]

pub mod call;
