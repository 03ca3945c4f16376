// Sending: a dword as four characters on a line.
ghost use Rattle.std.specs.Prelude.{◌≡◌, ◌+◌, ◌<◌, ◌≤◌, T, length};
ghost use Rattle.code.specs.Bits.{bits_of};
ghost use Rattle.code.specs.Characters.{encoded, after, valid};
ghost use Rattle.code.specs.Refusals.{numbered};
ghost use Rattle.line.specs.Writing.{Still};
ghost use Rattle.link.specs.Sending.{ValidDword, disparity_after, dword_bits, send_refusal, sending};
ghost use Rattle.link.specs.Accepting.{Accepted, checked_dword, checked_room, followed_by};

use crate::dword::Dword;
use crate::sender::{SendRefusal, Sender};
use code::refusal::Refusal;
use code::{K28_3, K28_5, encode};
use line::tap::Line;

// The bits of a dword.
const DWORD_BITS: usize = 40;

impl Refusal for SendRefusal {
    ghost number_of = { λ r. (send_refusal r).number };

    fn number(&self) -> u8 {
        match self {
            SendRefusal::KindAboveOne => 5,
            SendRefusal::NotSpecial => 6,
            SendRefusal::NoRoom => 2,
        }
    }
}

// Whether the codes of a dword are valid.
fn check_codes(dword: Dword) -> Result<(), SendRefusal>
    ensures answer { numbered send_refusal result ≡ checked_dword dword }
    ensures valid { Accepted result (T (valid dword.kind dword.b0)) }
{
    if dword.kind > 1 {
        return Err(SendRefusal::KindAboveOne);
    }
    if dword.kind == 1 && dword.b0 != K28_3 && dword.b0 != K28_5 {
        return Err(SendRefusal::NotSpecial);
    }
    Ok(())
}

// Whether a dword's bits can wait too.
fn check_room<L: Line>(line: &L) -> Result<(), SendRefusal>
    ensures { numbered send_refusal result ≡ checked_room (L.Tap.meaning line.now) }
{
    if line.capacity() - line.count() < DWORD_BITS {
        return Err(SendRefusal::NoRoom);
    }
    Ok(())
}

impl Sender {
    // Puts the character of a code, whose kind is a number as in its dword.
    #[tactic(auto, using(code::proofs::Laws::characters_fit, code::proofs::Laws::disparity_fits, crate::proofs::Puttings::ten_longer))]
    fn put_code<L: Line>(&mut self, line: &mut L, kind: u8, byte: u8)
        requires { (T (valid kind byte)) × (length (L.Tap.meaning line.old).waiting + 10 ≤ (L.Tap.meaning line.old).capacity) }
        ensures line { L.Tap.meaning line.new ≡ followed_by (L.Tap.meaning line.old) (bits_of 10 (encoded kind byte self.old.disparity)) }
        ensures disparity { self.new.disparity ≡ after (encoded kind byte self.old.disparity) self.old.disparity }
        ensures longer { length (L.Tap.meaning line.new).waiting ≡ length (L.Tap.meaning line.old).waiting + 10 }
    {
        // Kept: the code and the room were tested; encoding and putting refuse by number, so no type rules that out.
        let Ok(encoded) = encode(kind, byte, self.disparity) else {
            unreachable()
        };
        let Ok(()) = line.put(encoded.character) else {
            unreachable()
        };
        self.disparity = encoded.disparity;
    }

    // Puts the four characters of a dword.
    #[tactic(auto, using(crate::proofs::Puttings::dword_put))]
    fn put_dword<L: Line>(&mut self, line: &mut L, dword: Dword)
        requires { (T (valid dword.kind dword.b0)) × (length (L.Tap.meaning line.old).waiting + 40 ≤ (L.Tap.meaning line.old).capacity) }
        ensures line { L.Tap.meaning line.new ≡ followed_by (L.Tap.meaning line.old) (dword_bits self.old.disparity dword) }
        ensures disparity { self.new.disparity ≡ disparity_after self.old.disparity dword }
    {
        self.put_code(line, dword.kind, dword.b0);
        self.put_code(line, 0, dword.b1);
        self.put_code(line, 0, dword.b2);
        self.put_code(line, 0, dword.b3);
    }

    // Puts a dword on a line.
    pub fn send<L: Line>(&mut self, line: &mut L, dword: Dword) -> Result<(), SendRefusal>
        ensures answer { numbered send_refusal result ≡ (sending self.old.disparity (L.Tap.meaning line.old) dword).answer }
        ensures line { L.Tap.meaning line.new ≡ (sending self.old.disparity (L.Tap.meaning line.old) dword).line }
        ensures sender { self.new.disparity ≡ (sending self.old.disparity (L.Tap.meaning line.old) dword).disparity }
        ensures line_still { Still result line.old line.new }
        ensures sender_still { Still result self.old self.new }
        ensures valid { Accepted result (ValidDword dword) }
    {
        check_codes(dword)?;
        check_room(line)?;
        self.put_dword(line, dword);
        Ok(())
    }
}
