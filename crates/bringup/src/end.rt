// One end of a link while it is brought up.
use crate::detector::Detector;
use crate::rate::{Rate, RateSet};

// The most ticks that a note takes.
pub(crate) const MOST_TICKS: u32 = 400_000;

pub mod asking;
pub mod examples;
pub mod noting;
mod shown;

#[derive(Clone, Copy, PartialEq, Eq, Debug)]
pub enum Phase {
    Unstarted,
    SendingCominit,
    // COMINIT is sent, and no signal is detected yet
    Awaiting,
    SendingComsas,
    // COMSAS is sent, and the other's has not fallen yet
    Falling,
    Negotiating,
    Ready,
    Failed,
}

// Where a window stands in the sequence: first or after an invalid one, after a valid one, or last of all.
#[derive(Clone, Copy, PartialEq, Eq, Debug)]
pub enum Standing {
    AfterInvalid,
    AfterValid,
    Final,
}

// A speed negotiation window: whether a lock counted in it, and whether an ALIGN(1) was noted after that, which makes it
// valid.
#[derive(Clone, Copy, PartialEq, Eq, Debug)]
pub struct Window {
    pub rate: Rate,
    pub standing: Standing,
    pub locked: bool,
    pub aligned: bool,
}

// What is noted of the other end.
#[derive(Clone, Copy, PartialEq, Eq, Debug)]
pub enum Sign {
    Nothing,
    BurstStarts,
    BurstEnds,
    Locked,
    Align1,
}

// What an end sends.
#[derive(Clone, Copy, PartialEq, Eq, Debug)]
pub enum Activity {
    Idle,
    Burst,
    Align0,
    Align1,
}

#[derive(Clone, Copy, PartialEq, Eq, Debug)]
pub enum Outcome {
    Pending,
    Ready,
    Failed,
}

// `elapsed` counts the ticks of the phase, up to the longest that matters; before the first window there is none.
#[derive(Drop)]
pub struct End {
    rates: RateSet,
    phase: Phase,
    elapsed: u32,
    detector: Detector,
    window: Option<Window>,
}
