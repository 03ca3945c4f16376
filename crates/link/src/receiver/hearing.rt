// Hearing: what a receiver makes of the next bit of a tap.
ghost use Rattle.std.specs.Prelude.{◌≡◌};
ghost use Rattle.code.specs.Refusals.{numbered};
ghost use Rattle.link.specs.Hearing.{fresh};
ghost use Rattle.link.specs.Receiving.{hear_refusal, heard_from, Untouched};

use crate::heard::Heard;
use crate::receiver::Receiver;
use crate::state::State;
use code::refusal::Refusal;
use line::tap::Tap;

// Every number that a dword can have is given.
#[derive(Clone, Copy, PartialEq, Eq, Debug)]
pub enum HearRefusal {
    NumbersSpent,
}

impl Refusal for HearRefusal {
    ghost number_of = { λ r. (hear_refusal r).number };

    fn number(&self) -> u8 {
        match self {
            HearRefusal::NumbersSpent => 7,
        }
    }
}

impl Receiver {
    // A receiver that has heard nothing.
    pub fn new() -> Receiver
        ensures { result.state ≡ fresh }
    {
        Receiver {
            state: State::fresh(),
        }
    }

    // Takes one bit from the tap.
    pub fn hear<T: Tap>(&mut self, tap: &mut T) -> Result<Heard, HearRefusal>
        ensures answer { numbered hear_refusal result ≡ (heard_from self.old.state (T.meaning tap.old)).answer }
        ensures state { self.new.state ≡ (heard_from self.old.state (T.meaning tap.old)).state }
        ensures tap { T.meaning tap.new ≡ (heard_from self.old.state (T.meaning tap.old)).tap }
        ensures untouched { Untouched result (T.meaning tap.old) tap.old tap.new }
    {
        if self.state.ledger.number == u32::MAX {
            return Err(HearRefusal::NumbersSpent);
        }
        let Some(bit) = tap.take() else {
            return Ok(Heard::Dry);
        };
        let Some(readings) = self.frame(bit) else {
            return Ok(Heard::More);
        };
        if !self.state.ledger.synced {
            return Ok(self.close_before_sync(readings));
        }
        match readings.dword() {
            Some(dword) => Ok(self.hand_out(readings, dword)),
            None => Ok(self.report(readings)),
        }
    }
}
