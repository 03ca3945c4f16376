// Ten bits as they are received: the character of a code, or of none.
ghost use Rattle.std.specs.Prelude.{◌≡◌, ◌<◌, ◌≤◌, ◌&&◌, ◌==◌, IfSome, IsNone, ◌↔◌};
ghost use Rattle.code.specs.Kinds.{kind_number};
ghost use Rattle.code.specs.Disparities.{disparity_number};
ghost use Rattle.code.specs.Characters.{after, encoded, valid, decoded, OnlyCode};

use super::Code;
use super::numbers::{Disparity, Kind};
use crate::tables::{HIGH_OF_FOUR, LOW_OF_SIX, SET_BY_FOUR, SET_BY_SIX};

// The bits as a number, the first bit highest.
#[derive(Clone, Copy)]
pub struct Received {
    number: u16,
    ghost ten: { number < 1024 },
}

// Whether a code is valid and has the character at the disparity.
fn stands(code: Code, character: u16, disparity: Disparity) -> bool
    ensures { result ≡ (valid (kind_number code.kind) code.byte && (encoded (kind_number code.kind) code.byte (disparity_number disparity)) == character) }
{
    code.is_valid() && code.encoded(disparity).character == character
}

impl Received {
    // The bits of a number, which has ten unless it is above 1023.
    pub fn new(number: u16) -> Option<Received>
        ensures some { IfSome result (λ received. received.number ≡ number) }
        ensures none { IsNone result ↔ 1024 ≤ number }
    {
        if number > 1023 {
            return None;
        }
        Some(Received { number })
    }

    // The disparity after the bits, valid or not.
    pub fn next_disparity(self, disparity: Disparity) -> Disparity
        ensures { disparity_number result ≡ after self.number (disparity_number disparity) }
    {
        let middle = SET_BY_SIX[(self.number / 16) as usize].unwrap_or(disparity);
        SET_BY_FOUR[(self.number % 16) as usize].unwrap_or(middle)
    }

    // The only code that the bits can stand for, in either column.
    fn only_code(self) -> Code
        ensures { OnlyCode self.number result }
    {
        let six = self.number / 16;
        let four = self.number % 16;
        let (kind, four) = match six {
            0b001111 => (Kind::Special, four),
            0b110000 => (Kind::Special, 15 - four),
            _ => (Kind::Data, four),
        };
        Code {
            kind,
            byte: HIGH_OF_FOUR[four as usize] * 32 + LOW_OF_SIX[six as usize],
        }
    }

    // The code that the bits stand for in the column of the disparity.
    pub fn code_in_column(self, disparity: Disparity) -> Option<Code>
        ensures { result ≡ decoded self.number (disparity_number disparity) }
    {
        let code = self.only_code();
        stands(code, self.number, disparity).then_some(code)
    }
}
