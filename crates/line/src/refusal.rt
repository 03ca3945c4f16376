// Why a call on a line is refused.
ghost use Rattle.line.specs.Writing.{put_refusal, turn_refusal, memory_refusal};

use code::refusal::Refusal;

// Why a character is not put.
#[derive(Clone, Copy, PartialEq, Eq, Debug)]
pub enum PutRefusal {
    // its number is above 1023
    NotACharacter,
    // fewer than ten places are free
    NoRoom,
}

impl Refusal for PutRefusal {
    ghost number_of = { λ refusal. (put_refusal refusal).number };

    fn number(&self) -> u8 {
        match self {
            PutRefusal::NotACharacter => 1,
            PutRefusal::NoRoom => 2,
        }
    }
}

// Why a bit is not turned.
#[derive(Clone, Copy, PartialEq, Eq, Debug)]
pub enum TurnRefusal {
    // no bit waits at the place
    NotWaiting,
}

impl Refusal for TurnRefusal {
    ghost number_of = { λ refusal. (turn_refusal refusal).number };

    fn number(&self) -> u8 {
        match self {
            TurnRefusal::NotWaiting => 4,
        }
    }
}

// Why memory does not serve a line.
#[derive(Clone, Copy, PartialEq, Eq, Debug)]
pub enum MemoryRefusal {
    // the capacity would be outside the range of lines
    OutOfRange,
}

impl Refusal for MemoryRefusal {
    ghost number_of = { λ refusal. (memory_refusal refusal).number };

    fn number(&self) -> u8 {
        match self {
            MemoryRefusal::OutOfRange => 3,
        }
    }
}
