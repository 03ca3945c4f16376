// Framing: from bits to the four characters of a dword.
ghost use Rattle.std.specs.Prelude.{◌≡◌, ◌+◌, ◌*◌, ◌%◌, ◌<◌, min, if◌then◌else◌, ◌&&◌, ◌==◌};
ghost use Rattle.code.specs.Characters.{after};
ghost use Rattle.link.specs.Readings.{reading};
ghost use Rattle.link.specs.Hearing.{hunted, completed, hearing, ended};

use crate::reading::{Reading, Readings};
use crate::receiver::Receiver;
use crate::state::Framing;
use code::{DecodeRefusal, decode};

// A K28.5 begins with one of these seven bits, at minus and at plus.
const COMMA_AT_MINUS: u16 = 0b0011111;

const COMMA_AT_PLUS: u16 = 0b1100000;

// The disparity at which a K28.5 begins with these bits, if they are seven and one does.
fn comma_disparity(held: u8, window: u16) -> Option<u8>
    ensures { result ≡ (if held == 7 && window == 0b0011111 then Some 0 else (if held == 7 && window == 0b1100000 then Some 1 else None)) }
{
    match (held, window) {
        (7, COMMA_AT_MINUS) => Some(0),
        (7, COMMA_AT_PLUS) => Some(1),
        _ => None,
    }
}

// Reads a character at a place and a disparity; the disparity after it comes with the reading.
#[tactic(auto, using(code::proofs::Laws::disparity_fits))]
fn read_character(character: u16, disparity: u8, place: u8) -> (Reading, u8)
    requires { (character < 1024) × (disparity < 2) }
    ensures is { result ≡ (reading place character disparity, after character disparity) }
    ensures binary { result.1 < 2 }
{
    match decode(character, disparity) {
        Ok(decoded) => (Reading::at_place(place, decoded.code), decoded.disparity),
        Err(DecodeRefusal::NotInColumn(next)) => (Reading::Refused, next),
        // Kept: decoding refuses these by number, so no type of its arguments rules them out.
        Err(DecodeRefusal::NotACharacter | DecodeRefusal::DisparityAboveOne) => unreachable(),
    }
}

impl Receiver {
    // Hunting goes on with the last seven bits, or they are a comma.
    #[tactic(auto, using(crate::proofs::Fits::window_fits))]
    fn hunt(&mut self, bit: u8)
        requires { bit < 2 }
        ensures { self.new.state ≡ hunted self.old.state ((self.old.state.framing.loose * 2 + bit) % 128) (min 7 (self.old.state.framing.held + 1)) }
    {
        let window = (self.state.framing.loose * 2 + bit as u16) % 128;
        let held = (self.state.framing.held + 1).min(7);
        let comma = comma_disparity(held, window);
        self.state.framing = Framing {
            loose: window,
            held,
            ..Framing::empty(comma.is_none())
        };
        if let Some(disparity) = comma {
            self.state.disparity = disparity;
        }
    }

    // Ten bits make a character, four characters a dword.
    #[tactic(auto, unfolding(crate::specs::Hearing::completed))]
    fn complete(&mut self, character: u16) -> Option<Readings>
        requires { character < 1024 }
        ensures is { completed self.old.state character ≡ ended result self.new.state }
        ensures ledger { self.new.state.ledger ≡ self.old.state.ledger }
    {
        let Framing {
            place,
            first,
            second,
            third,
            ..
        } = self.state.framing;
        let (reading, disparity) = read_character(character, self.state.disparity, place);
        self.state.disparity = disparity;
        if place == 3 {
            return Some(Readings {
                first,
                second,
                third,
                fourth: reading,
            });
        }
        self.state.framing = Framing {
            hunting: false,
            loose: 0,
            held: 0,
            place: place + 1,
            first: second,
            second: third,
            third: reading,
        };
        None
    }

    // One more bit; the last of a dword gives the readings of its characters.
    #[tactic(auto, unfolding(crate::specs::Hearing::hearing))]
    pub(super) fn frame(&mut self, bit: u8) -> Option<Readings>
        requires { bit < 2 }
        ensures is { hearing self.old.state bit ≡ ended result self.new.state }
        ensures ledger { self.new.state.ledger ≡ self.old.state.ledger }
    {
        if self.state.framing.hunting {
            self.hunt(bit);
            return None;
        }
        let loose = self.state.framing.loose * 2 + bit as u16;
        if self.state.framing.held == 9 {
            return self.complete(loose);
        }
        self.state.framing.loose = loose;
        self.state.framing.held += 1;
        None
    }
}
