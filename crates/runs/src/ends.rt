// Any list of calls on two ends that nobody has used.
ghost use Rattle.std.specs.Prelude.{◌≡◌, ◌≤◌, length, IfOk};
ghost use Rattle.code.specs.Refusals.{numbered};
ghost use Rattle.runs.specs.declared.ends.EndRefusal.TheVariants.{Start, Note};
ghost use Rattle.runs.specs.EndRuns.{stepped, answered, end_refusal, Stand, EndsCalled, EndRunOf};
ghost use Rattle.runs.specs.LentRuns.{courses, Written, EndsAgree};

use crate::driving::{Driven, drive};
use bringup::end::End;
use bringup::end::noting::{NoteRefusal, StartRefusal};
use code::refusal::Refusal;
use std::alloc::{AllocError, Global};

#[derive(Clone, Copy, PartialEq, Eq, Debug)]
pub enum WhichEnd {
    First,
    Second,
}

#[derive(Clone, Copy, PartialEq, Eq, Debug)]
pub enum EndStep {
    Start(u8),
    Note(u32, u8),
}

#[derive(Clone, Copy, PartialEq, Eq, Debug)]
pub struct EndCall {
    pub which: WhichEnd,
    pub step: EndStep,
}

// Why a call on an end is declined.
#[derive(Clone, Copy, PartialEq, Eq, Debug)]
pub enum EndRefusal {
    Start(StartRefusal),
    Note(NoteRefusal),
}

// What a call on an end answers.
pub type EndAnswer = Result<(), EndRefusal>;

impl Refusal for EndRefusal {
    ghost number_of = { λ r. (end_refusal r).number };

    fn number(&self) -> u8 {
        match self {
            EndRefusal::Start(refusal) => refusal.number(),
            EndRefusal::Note(refusal) => refusal.number(),
        }
    }
}

impl From<StartRefusal> for EndRefusal {
    ghost from_gives = { λ refusal r. r ≡ Start refusal };

    fn from(refusal: StartRefusal) -> EndRefusal {
        EndRefusal::Start(refusal)
    }
}

impl From<NoteRefusal> for EndRefusal {
    ghost from_gives = { λ refusal r. r ≡ Note refusal };

    fn from(refusal: NoteRefusal) -> EndRefusal {
        EndRefusal::Note(refusal)
    }
}

// The two ends after a list of calls.
#[derive(Drop)]
pub struct TwoEnds {
    pub first: End,
    pub second: End,
}

// The two ends after a list of calls, and the answer of each call.
#[derive(Drop)]
pub struct EndRun {
    pub ends: TwoEnds,
    pub answers: Vec<EndAnswer>,
}

fn call_one(end: &mut End, step: EndStep) -> EndAnswer
    ensures end { end.new ≡ stepped step end.old }
    ensures answer { numbered end_refusal result ≡ answered step end.old }
{
    match step {
        EndStep::Start(rates) => end.start(rates)?,
        EndStep::Note(ticks, sign) => end.note(ticks, sign)?,
    }
    Ok(())
}

impl Driven for TwoEnds {
    type Call = EndCall;

    type Answer = EndAnswer;

    ghost step = { EndsCalled };

    fn call(&mut self, call: EndCall) -> EndAnswer {
        match call.which {
            WhichEnd::First => call_one(&mut self.first, call.step),
            WhichEnd::Second => call_one(&mut self.second, call.step),
        }
    }
}

// Makes the calls on two new ends, and writes each answer to its place.
pub(crate) fn make_calls(calls: &[EndCall], answers: &mut [EndAnswer]) -> TwoEnds
    requires { length calls.now ≤ length answers.old }
    ensures ends { Stand (courses calls.now) result }
    ensures answers { Written calls.now answers.old answers.new }
{
    let mut ends = TwoEnds {
        first: End::new(),
        second: End::new(),
    };
    drive(&mut ends, calls, answers);
    ends
}

// The law of agreement, which holds of any calls: there is nothing to do for it.
pub(crate) fn ends_agree(_calls: &[EndCall])
    ensures { EndsAgree _calls.now }
{}

// Makes the calls on two ends that nobody has used, and gives the ends and every answer. That the two ends agree on a
// fair line is part of the promise. Want of memory for the answers is the only thing that it can decline for.
pub fn run_ends(heap: Global, calls: &[EndCall]) -> Result<EndRun, AllocError>
    ensures { IfOk result (λ run. EndRunOf calls.now run) }
{
    ends_agree(calls);
    let mut answers = vec![in heap; EndAnswer::Ok(()); calls.len()]?;
    let ends = make_calls(calls, &mut answers);
    Ok(EndRun { ends, answers })
}
