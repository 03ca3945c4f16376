// Worked examples of the code, and the laws that its whole table obeys.
ghost use Rattle.std.specs.Prelude.{◌≡◌, true};
ghost use Rattle.code.specs.Encodings.{encoding, is_encoded};
ghost use Rattle.code.specs.Decodings.{decoding, is_decoded, is_out_of_column};
ghost use Rattle.code.specs.Laws.{CodeLaws, Examples};

use super::decoding::{DecodeRefusal, Decoded, decode};
use super::encoding::encode;
use super::numbers::Kind;
use super::{Code, Encoded};

// Whether encoding gives this character and this disparity after it.
fn encodes(kind: u8, byte: u8, disparity: u8, character: u16, next: u8) -> bool
    ensures { result ≡ is_encoded (encoding kind byte disparity) character next }
{
    let encoded = Encoded {
        character,
        disparity: next,
    };
    encode(kind, byte, disparity) == Ok(encoded)
}

// Whether decoding gives this data byte and this disparity after it.
fn decodes(character: u16, disparity: u8, byte: u8, next: u8) -> bool
    ensures { result ≡ is_decoded (decoding character disparity) byte next }
{
    let kind = Kind::Data;
    let decoded = Decoded {
        code: Code { kind, byte },
        disparity: next,
    };
    decode(character, disparity) == Ok(decoded)
}

// Whether decoding tells that the character is not in the column, with this disparity after it.
fn is_refused(character: u16, disparity: u8, next: u8) -> bool
    ensures { result ≡ is_out_of_column (decoding character disparity) next }
{
    decode(character, disparity) == Err(DecodeRefusal::NotInColumn(next))
}

// The laws stand in this promise; there is nothing to run.
fn laws_stand()
    ensures laws { CodeLaws }
    ensures examples { Examples }
{}

// Runs the worked examples. Its promise has the laws of the code besides.
pub fn examples_hold() -> bool
    ensures hold { result ≡ true }
    ensures examples { Examples }
    ensures laws { CodeLaws }
{
    laws_stand();
    encodes(0, 0x35, 0, 0b1010101001, 0)
        & decodes(0b1010101011, 0, 0x15, 1)
        & encodes(0, 0xB7, 0, 0b1110101010, 1)
        & is_refused(0b1110101010, 1, 1)
        & encodes(0, 0xF1, 0, 0b1000110111, 1)
        & encodes(1, 0xBC, 0, 0b0011111010, 1)
        & encodes(0, 0x4A, 1, 0b0101010101, 1)
        & encodes(0, 0x7B, 1, 0b0010011100, 0)
}
