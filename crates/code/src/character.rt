// Characters made of their halves.
ghost use Rattle.std.specs.Prelude.{◌≡◌, ◌<◌};
ghost use Rattle.code.specs.Kinds.{kind_number};
ghost use Rattle.code.specs.Disparities.{disparity_number};
ghost use Rattle.code.specs.Halves.{IsHalf};
ghost use Rattle.code.specs.Characters.{is_alternate, four_after, valid, unlike};
ghost use Rattle.code.specs.Encodings.{data_sent, special_sent, sent_as};

use crate::tables::{ALTERNATE_SEVEN, FOURS, Half, SIXES};

pub mod decoding;
pub mod encoding;
pub mod examples;
pub mod numbers;
mod received;

use numbers::{Disparity, Kind};

// The bytes of the special codes K28.3 and K28.5.
pub const K28_3: u8 = 0x7C;

pub const K28_5: u8 = 0xBC;

// What a character stands for.
#[derive(Clone, Copy, PartialEq, Eq, Debug)]
pub struct Code {
    pub kind: Kind,
    pub byte: u8,
}

// A character, its first bit highest, and the disparity after it.
// Kept: the disparity is a number, since the next call takes it by number.
#[derive(Clone, Copy, PartialEq, Eq, Debug)]
pub struct Encoded {
    pub character: u16,
    pub disparity: u8,
}

// Whether a byte's four-bit half is alternate: that of a high 7 after some low bits.
fn is_alternate(low: u8, high: u8, disparity: Disparity) -> bool
    ensures { result ≡ is_alternate low high (disparity_number disparity) }
{
    high == 7
        && match disparity {
            Disparity::Minus => low == 17 || low == 18 || low == 20,
            Disparity::Plus => low == 11 || low == 13 || low == 14,
        }
}

// The four-bit half at the disparity that the six-bit half leaves.
fn four_half(low: u8, high: u8, disparity: Disparity) -> Half
    requires { high < 8 }
    ensures { IsHalf 4 result (four_after low high (disparity_number disparity)) (disparity_number disparity) }
{
    if is_alternate(low, high, disparity) {
        ALTERNATE_SEVEN
    } else {
        FOURS[high as usize]
    }
}

fn data_character(byte: u8, disparity: Disparity) -> Encoded
    ensures { result ≡ data_sent byte (disparity_number disparity) }
{
    let low = byte % 32;
    let six = SIXES[low as usize];
    let middle = six.then(disparity);
    let four = four_half(low, byte / 32, middle);
    Encoded {
        character: six.at(disparity) as u16 * 16 + four.at(middle) as u16,
        disparity: four.then(middle).into(),
    }
}

// Both special characters leave the other disparity.
fn special_character(byte: u8, disparity: Disparity) -> Encoded
    ensures { result ≡ special_sent byte (disparity_number disparity) }
{
    let at_minus = if byte == K28_5 {
        0b001111_1010
    } else {
        0b001111_0011
    };
    let character = match disparity {
        Disparity::Minus => at_minus,
        Disparity::Plus => 1023 - at_minus,
    };
    Encoded {
        character,
        disparity: disparity.other().into(),
    }
}

impl Code {
    // Every data byte is valid, and K28.3 and K28.5.
    fn is_valid(self) -> bool
        ensures { result ≡ valid (kind_number self.kind) self.byte }
    {
        match self.kind {
            Kind::Data => true,
            Kind::Special => self.byte == K28_3 || self.byte == K28_5,
        }
    }

    // The character of the code, whose special byte is taken for K28.3 where it is not K28.5.
    #[tactic(auto, unfolding(crate::specs::Characters::encoded))]
    fn encoded(self, disparity: Disparity) -> Encoded
        ensures { result ≡ sent_as (kind_number self.kind) self.byte (disparity_number disparity) }
    {
        match self.kind {
            Kind::Data => data_character(self.byte, disparity),
            Kind::Special => special_character(self.byte, disparity),
        }
    }

    // Whether the two characters of the code differ.
    pub fn has_unlike_columns(self) -> bool
        ensures { result ≡ unlike (kind_number self.kind) self.byte }
    {
        self.encoded(Disparity::Minus).character != self.encoded(Disparity::Plus).character
    }
}
