// The tables of halves. A half is read with its first bit highest; `low` is a byte's low five bits, `high` its high three.
ghost use Rattle.std.specs.Prelude.{◌≡◌};
ghost use Rattle.code.specs.Disparities.{disparity_number};
ghost use Rattle.code.specs.Halves.{half_at, half_then};

use crate::character::numbers::Disparity;

// A half at minus and at plus, and whether it turns the disparity, as an unbalanced one does.
#[derive(Clone, Copy)]
pub struct Half(u8, u8, bool);

impl Half {
    pub fn at(self, disparity: Disparity) -> u8
        ensures { result ≡ half_at self (disparity_number disparity) }
    {
        let Half(at_minus, at_plus, _) = self;
        match disparity {
            Disparity::Minus => at_minus,
            Disparity::Plus => at_plus,
        }
    }

    // The disparity that the next half uses.
    pub fn then(self, disparity: Disparity) -> Disparity
        ensures { disparity_number result ≡ half_then self (disparity_number disparity) }
    {
        let Half(_, _, turns) = self;
        if turns { disparity.other() } else { disparity }
    }
}

// The six-bit halves by low.
pub static SIXES: [Half; 32] = [
    Half(0x27, 0x18, true),
    Half(0x1D, 0x22, true),
    Half(0x2D, 0x12, true),
    Half(0x31, 0x31, false),
    Half(0x35, 0x0A, true),
    Half(0x29, 0x29, false),
    Half(0x19, 0x19, false),
    Half(0x38, 0x07, false),
    Half(0x39, 0x06, true),
    Half(0x25, 0x25, false),
    Half(0x15, 0x15, false),
    Half(0x34, 0x34, false),
    Half(0x0D, 0x0D, false),
    Half(0x2C, 0x2C, false),
    Half(0x1C, 0x1C, false),
    Half(0x17, 0x28, true),
    Half(0x1B, 0x24, true),
    Half(0x23, 0x23, false),
    Half(0x13, 0x13, false),
    Half(0x32, 0x32, false),
    Half(0x0B, 0x0B, false),
    Half(0x2A, 0x2A, false),
    Half(0x1A, 0x1A, false),
    Half(0x3A, 0x05, true),
    Half(0x33, 0x0C, true),
    Half(0x26, 0x26, false),
    Half(0x16, 0x16, false),
    Half(0x36, 0x09, true),
    Half(0x0E, 0x0E, false),
    Half(0x2E, 0x11, true),
    Half(0x1E, 0x21, true),
    Half(0x2B, 0x14, true),
];

// The four-bit halves by high.
pub static FOURS: [Half; 8] = [
    Half(0b1011, 0b0100, true),
    Half(0b1001, 0b1001, false),
    Half(0b0101, 0b0101, false),
    Half(0b1100, 0b0011, false),
    Half(0b1101, 0b0010, true),
    Half(0b1010, 0b1010, false),
    Half(0b0110, 0b0110, false),
    Half(0b1110, 0b0001, true),
];

// The half of a high 7 after some low bits.
pub static ALTERNATE_SEVEN: Half = Half(0b0111, 0b1000, true);

// A received half sets the disparity, or keeps the one that it finds.
const MINUS: Option<Disparity> = Some(Disparity::Minus);

const PLUS: Option<Disparity> = Some(Disparity::Plus);

const KEPT: Option<Disparity> = None;

// What a six-bit half sets.
pub static SET_BY_SIX: [Option<Disparity>; 64] = [
    MINUS, MINUS, MINUS, MINUS, MINUS, MINUS, MINUS, PLUS, MINUS, MINUS, MINUS, KEPT, MINUS, KEPT,
    KEPT, PLUS, MINUS, MINUS, MINUS, KEPT, MINUS, KEPT, KEPT, PLUS, MINUS, KEPT, KEPT, PLUS, KEPT,
    PLUS, PLUS, PLUS, MINUS, MINUS, MINUS, KEPT, MINUS, KEPT, KEPT, PLUS, MINUS, KEPT, KEPT, PLUS,
    KEPT, PLUS, PLUS, PLUS, MINUS, KEPT, KEPT, PLUS, KEPT, PLUS, PLUS, PLUS, MINUS, PLUS, PLUS,
    PLUS, PLUS, PLUS, PLUS, PLUS,
];

// What a four-bit half sets.
pub static SET_BY_FOUR: [Option<Disparity>; 16] = [
    MINUS, MINUS, MINUS, PLUS, MINUS, KEPT, KEPT, PLUS, MINUS, KEPT, KEPT, PLUS, MINUS, PLUS, PLUS,
    PLUS,
];

// The low of the only bytes that a six-bit half can belong to, those of K28 included; 0 where there are none.
pub static LOW_OF_SIX: [u8; 64] = [
    0, 0, 0, 0, 0, 23, 8, 7, 0, 27, 4, 20, 24, 12, 28, 28, 0, 29, 2, 18, 31, 10, 26, 15, 0, 6, 22,
    16, 14, 1, 30, 0, 0, 30, 1, 17, 16, 9, 25, 0, 15, 5, 21, 31, 13, 2, 29, 0, 28, 3, 19, 24, 11,
    4, 27, 0, 7, 8, 23, 0, 0, 0, 0, 0,
];

// The high of the only bytes that a four-bit half can belong to, the alternate halves of 7 included; 0 where there are none.
pub static HIGH_OF_FOUR: [u8; 16] = [0, 7, 4, 3, 0, 2, 6, 7, 7, 1, 5, 0, 3, 4, 7, 0];
