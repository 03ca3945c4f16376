// What a receiver tells: records and reports, how they are printed, and the queues that collect them.
#![tactic(auto)]

pub mod collecting;
pub mod queue;
pub mod record;
pub mod report;
