// Any list of calls on a link that nobody has used: an empty line, its sender as it was opened, and a new receiver.
ghost use Rattle.std.specs.Prelude.{◌↔◌, IsTrue, OnOk};
ghost use Rattle.line.specs.Writing.{Still};
ghost use Rattle.runs.specs.LinkRuns.{LinkCalled, LinkRan, SamePlaces, HasPlaces, IsEmpty, LinkDeclined};

use crate::driving::{Driven, drive};
use crate::refusal::RunRefusal;
use line::tap::{Line, Tap};
use link::receiver::Receiver;
use link::sender::Sender;
use transcript::call::{LinkCall, LinkEvent};

// A lent line with its sender, the calls to be made, and a place for the event of each.
#[derive(Drop)]
pub struct LinkRun<'a, L: Line> {
    pub line: &'a mut L,
    pub sender: &'a mut Sender,
    pub calls: &'a [LinkCall],
    pub events: &'a mut [LinkEvent],
}

// A lent line with its sender, and the receiver that hears it.
#[derive(Drop)]
struct Link<'a, L: Line> {
    line: &'a mut L,
    sender: &'a mut Sender,
    receiver: Receiver,
}

impl<L: Line> Driven for Link<'_, L> {
    type Call = LinkCall;

    type Answer = LinkEvent;

    ghost step = { LinkCalled L.Tap.meaning };

    fn call(&mut self, call: LinkCall) -> LinkEvent {
        match call {
            LinkCall::Send(dword) => LinkEvent::Send(dword, self.sender.send(self.line, dword)),
            LinkCall::Turn(place) => LinkEvent::Turn(place, self.line.turn(place)),
            LinkCall::Take => LinkEvent::Take(self.line.take()),
            LinkCall::Hear => LinkEvent::Hear(self.receiver.hear(self.line)),
        }
    }
}

impl<L: Line> LinkRun<'_, L> {
    // Whether there is a place for the event of each call.
    pub(crate) fn has_places(&self) -> bool
        ensures { IsTrue result ↔ HasPlaces self.now }
    {
        self.events.len() >= self.calls.len()
    }

    // Whether the line is empty.
    pub(crate) fn is_empty(&self) -> bool
        ensures { IsTrue result ↔ IsEmpty L.Tap.meaning self.now }
    {
        self.line.count() == 0
    }

    // Makes the calls with a new receiver, and writes each event to its place.
    pub(crate) fn make_calls(&mut self)
        requires places { HasPlaces self.old }
        requires empty { IsEmpty L.Tap.meaning self.old }
        ensures ran { LinkRan L.Tap.meaning self.old self.new }
        ensures same { SamePlaces self.old self.new }
    {
        let mut link = Link {
            line: &mut *self.line,
            sender: &mut *self.sender,
            receiver: Receiver::new(),
        };
        drive(&mut link, self.calls, self.events);
    }
}

// Makes the calls on an empty line, with its sender and a new receiver, and writes each event to its place in the memory.
// If there are fewer places than calls, or bits wait on the line, nothing is done.
pub fn run_link<L: Line>(run: &mut LinkRun<'_, L>) -> Result<(), RunRefusal>
    ensures ran { OnOk result (LinkRan L.Tap.meaning run.old run.new) }
    ensures declined { LinkDeclined L.Tap.meaning run.old result }
    ensures still { Still result run.old run.new }
    ensures same { SamePlaces run.old run.new }
{
    if !run.has_places() {
        return Err(RunRefusal::TooFewPlaces);
    }
    if !run.is_empty() {
        return Err(RunRefusal::BitsWaiting);
    }
    run.make_calls();
    Ok(())
}
