// Taps hand out bits one by one; lines are taps that can also be written.
ghost use Rattle.std.specs.Prelude.{◌≡◌, ◌≤◌, length, ◌==◌};
ghost use Rattle.code.specs.Refusals.{numbered};
ghost use Rattle.line.specs.Waiting.{Meaning, Taken, IsBit, DryStill};
ghost use Rattle.line.specs.Writing.{put_refusal, turn_refusal, line_capacity, putting, turning, Still};

use crate::refusal::{PutRefusal, TurnRefusal};

// A tap means the bits that wait, and the most that can wait.
pub trait Tap {
    ghost meaning: { Self → Meaning };

    // Takes the first bit that waits; a dry tap answers none.
    fn take(&mut self) -> Option<u8>
        ensures taken { Taken (meaning self.old) result (meaning self.new) }
        ensures bit { IsBit result }
        ensures still { DryStill result self.old self.new };

    // How many bits wait.
    fn count(&self) -> usize
        ensures { result ≡ length (meaning self.now).waiting };

    // Whether no bit waits. A tap whose count takes long may answer this sooner.
    fn is_dry(&self) -> bool
        ensures { result ≡ (length (meaning self.now).waiting == 0) }
    {
        self.count() == 0
    }
}

// A line is a tap that can also be written; a declined call leaves it as it was.
pub trait Line: Tap {
    // The most bits that can wait, which no call changes: a multiple of ten in the range of lines, or 0.
    fn capacity(&self) -> usize
        ensures capacity { result ≡ (Self.Tap.meaning self.now).capacity }
        ensures range { result ≡ line_capacity result }
        ensures within { length (Self.Tap.meaning self.now).waiting ≤ result };

    // Puts the ten bits of a character behind those that wait.
    fn put(&mut self, character: u16) -> Result<(), PutRefusal>
        ensures answer { numbered put_refusal result ≡ (putting (Self.Tap.meaning self.old) character).answer }
        ensures line { Self.Tap.meaning self.new ≡ (putting (Self.Tap.meaning self.old) character).line }
        ensures still { Still result self.old self.new };

    // Inverts the bit that waits at a place; 0 is the next to be taken.
    fn turn(&mut self, place: usize) -> Result<(), TurnRefusal>
        ensures answer { numbered turn_refusal result ≡ (turning (Self.Tap.meaning self.old) place).answer }
        ensures line { Self.Tap.meaning self.new ≡ (turning (Self.Tap.meaning self.old) place).line }
        ensures still { Still result self.old self.new };
}
