// Decoding: from a character to the code that stands for it in a column.
ghost use Rattle.std.specs.Prelude.{◌≡◌};
ghost use Rattle.code.specs.Characters.{unlike};
ghost use Rattle.code.specs.Refusals.{numbered};
ghost use Rattle.code.specs.Decodings.{decode_refusal, decoding};
ghost use Rattle.code.specs.declared.character.decoding.DecodeRefusal.TheVariants.{DisparityAboveOne};

use super::Code;
use super::numbers::{Disparity, Kind, UnknownDisparity};
use super::received::Received;
use crate::refusal::Refusal;

// A code that was read, and the disparity after its character.
// Kept: the disparity is a number, since the next call takes it by number.
#[derive(Clone, Copy, PartialEq, Eq, Debug)]
pub struct Decoded {
    pub code: Code,
    pub disparity: u8,
}

// NotInColumn has the disparity after the character.
// Kept: that disparity is a number, since the next call takes it by number.
#[derive(Clone, Copy, PartialEq, Eq, Debug)]
pub enum DecodeRefusal {
    NotACharacter,
    DisparityAboveOne,
    NotInColumn(u8),
}

impl Refusal for DecodeRefusal {
    ghost number_of = { λ r. (decode_refusal r).number };

    fn number(&self) -> u8 {
        match self {
            DecodeRefusal::NotACharacter => 1,
            DecodeRefusal::DisparityAboveOne => 14,
            DecodeRefusal::NotInColumn(_) => 20,
        }
    }
}

impl From<UnknownDisparity> for DecodeRefusal {
    ghost from_gives = { λ unknown refusal. refusal ≡ DisparityAboveOne };

    fn from(_unknown: UnknownDisparity) -> DecodeRefusal {
        DecodeRefusal::DisparityAboveOne
    }
}

// The code of a character in the column of the disparity, and the disparity after it.
// Kept: the disparity is a number, since one above 1 is refused by number, and C calls this.
pub fn decode(character: u16, disparity: u8) -> Result<Decoded, DecodeRefusal>
    ensures { numbered decode_refusal result ≡ decoding character disparity }
{
    let received = Received::new(character).ok_or(DecodeRefusal::NotACharacter)?;
    let disparity = Disparity::try_from(disparity)?;
    let next = received.next_disparity(disparity).into();
    let code = received
        .code_in_column(disparity)
        .ok_or(DecodeRefusal::NotInColumn(next))?;
    Ok(Decoded {
        code,
        disparity: next,
    })
}

// Whether the two characters of a code differ. Every kind but 0 is taken for a special one.
// Kept: the kind is a number, as any could always be asked of; an enum would ask more of callers.
pub fn has_unlike_columns(kind: u8, byte: u8) -> bool
    ensures { result ≡ unlike kind byte }
{
    let kind = Kind::try_from(kind).unwrap_or(Kind::Special);
    Code { kind, byte }.has_unlike_columns()
}
