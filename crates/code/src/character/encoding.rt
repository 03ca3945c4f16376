// Encoding: from a code to its character.
ghost use Rattle.std.specs.Prelude.{◌≡◌};
ghost use Rattle.code.specs.Refusals.{numbered};
ghost use Rattle.code.specs.Encodings.{encode_refusal, encoding};
ghost use Rattle.code.specs.declared.character.encoding.EncodeRefusal.TheVariants.{KindAboveOne, DisparityAboveOne};

use super::numbers::{Disparity, Kind, UnknownDisparity, UnknownKind};
use super::{Code, Encoded};
use crate::refusal::Refusal;

#[derive(Clone, Copy, PartialEq, Eq, Debug)]
pub enum EncodeRefusal {
    KindAboveOne,
    NotSpecial,
    DisparityAboveOne,
}

impl Refusal for EncodeRefusal {
    ghost number_of = { λ r. (encode_refusal r).number };

    fn number(&self) -> u8 {
        match self {
            EncodeRefusal::KindAboveOne => 5,
            EncodeRefusal::NotSpecial => 6,
            EncodeRefusal::DisparityAboveOne => 14,
        }
    }
}

impl From<UnknownKind> for EncodeRefusal {
    ghost from_gives = { λ unknown refusal. refusal ≡ KindAboveOne };

    fn from(_unknown: UnknownKind) -> EncodeRefusal {
        EncodeRefusal::KindAboveOne
    }
}

impl From<UnknownDisparity> for EncodeRefusal {
    ghost from_gives = { λ unknown refusal. refusal ≡ DisparityAboveOne };

    fn from(_unknown: UnknownDisparity) -> EncodeRefusal {
        EncodeRefusal::DisparityAboveOne
    }
}

// The character of a code at a disparity, and the disparity after it.
// Kept: kind and disparity are numbers, since those above 1 are refused by number, and C calls this. The code is tested here,
// and not kept in an `Option`, with which special and refused codes took two to three times as long.
#[inline]
pub fn encode(kind: u8, byte: u8, disparity: u8) -> Result<Encoded, EncodeRefusal>
    ensures { numbered encode_refusal result ≡ encoding kind byte disparity }
{
    let kind = Kind::try_from(kind)?;
    let code = Code { kind, byte };
    if !code.is_valid() {
        return Err(EncodeRefusal::NotSpecial);
    }
    let disparity = Disparity::try_from(disparity)?;
    Ok(code.encoded(disparity))
}
