// What a receiver keeps.
ghost use Rattle.std.specs.Prelude.{◌≡◌};
ghost use Rattle.link.specs.Hearing.{empty_frame, fresh};

use crate::reading::Reading;

// Kept: flags and plain numbers, no enum of phases: the rules want the invariant in the receiver over number fields.

// Where the receiver stands in the bits: while hunting, the last bits for a comma; else the loose bits, which make no
// character yet, the place of the next character, and the readings of the three before it, the latest third.
#[derive(Clone, Copy)]
pub struct Framing {
    pub hunting: bool,
    pub loose: u16,
    pub held: u8,
    pub place: u8,
    pub first: Reading,
    pub second: Reading,
    pub third: Reading,
}

impl Framing {
    // No bit and no character yet, of a comma or of a dword.
    pub fn empty(hunting: bool) -> Framing
        ensures { result ≡ empty_frame hunting }
    {
        Framing {
            hunting,
            loose: 0,
            held: 0,
            place: 0,
            first: Reading::Refused,
            second: Reading::Refused,
            third: Reading::Refused,
        }
    }
}

// Where it stands in the dwords: before sync the K28.5 primitives counted; in sync the debts, and whether the latest
// dword is good and waits for another to make a pair; the dwords numbered so far, and how many of them, the latest, are
// the open stretch.
#[derive(Clone, Copy)]
pub struct Ledger {
    pub synced: bool,
    pub count: u8,
    pub number: u32,
    pub debt: u8,
    pub single: bool,
    pub pending: u32,
}

impl Ledger {
    // No dword is heard yet.
    pub fn fresh() -> Ledger
        ensures { result ≡ fresh.ledger }
    {
        Ledger {
            synced: false,
            count: 0,
            number: 0,
            debt: 0,
            single: false,
            pending: 0,
        }
    }
}

// The disparity is that of the next character.
#[derive(Clone, Copy)]
pub struct State {
    pub framing: Framing,
    pub disparity: u8,
    pub ledger: Ledger,
}

impl State {
    // Nothing is heard yet.
    pub fn fresh() -> State
        ensures { result ≡ fresh }
    {
        State {
            framing: Framing::empty(true),
            disparity: 0,
            ledger: Ledger::fresh(),
        }
    }
}
