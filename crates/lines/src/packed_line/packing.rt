// What a line over packed bits does.
ghost use Rattle.std.specs.Prelude.{◌≡◌, ◌+◌, ◌*◌, ◌<◌, ◌≤◌, [], ◌∷◌, length};
ghost use Rattle.code.specs.Bits.{bits_of};
ghost use Rattle.code.specs.Refusals.{numbered};
ghost use Rattle.line.specs.Waiting.{Taken, IsBit, DryStill};
ghost use Rattle.line.specs.Writing.{put_refusal, turn_refusal, memory_refusal, checking, empty_line, putting, turning, stored, Still};
ghost use Rattle.lines.specs.Packed.{packed_meaning, memory_bits, Appended, bits_put, bits_turned};

use crate::capacity::{capacity_over, check_memory};
use crate::character::bit_of_character;
use crate::checks::{check_put, check_turn};
use crate::packed_line::PackedLine;
use crate::packed_line::bits::{flip, set_bit};
use line::bits::bit_of_byte;
use line::refusal::{MemoryRefusal, PutRefusal, TurnRefusal};
use line::ring::Ring;
use line::tap::{Line, Tap};

impl<'a> PackedLine<'a> {
    // Checks memory for a line: its capacity, or a refusal where that is outside the range of lines.
    pub fn check(memory: &[u8]) -> Result<usize, MemoryRefusal>
        ensures { numbered memory_refusal result ≡ checking (8 * length memory.now) }
    {
        check_memory(8, memory.len())
    }

    // An empty line over the memory, which stays as it is; its capacity is 0 where that is outside the range.
    pub fn over(memory: &'a mut [u8]) -> PackedLine<'a>
        ensures line { packed_meaning result ≡ empty_line (8 * length memory.old) }
        ensures bytes { result.bytes.now ≡ memory.old }
        ensures lent { result.bytes.ghost_name ≡ memory.entry.ghost_name }
    {
        PackedLine {
            ring: Ring::over(capacity_over(8, memory.len())),
            bytes: memory,
        }
    }

    // Puts a bit behind the last.
    fn append_bit(&mut self, bit: u8)
        requires { (self.old.ring.count < self.old.ring.size) × (bit < 2) }
        ensures { Appended self.old (bit ∷ []) self.new }
    {
        if let Some(place) = self.ring.grow() {
            set_bit(self.bytes, place, bit);
        }
    }

    // Puts a character behind the last bit.
    fn append(&mut self, character: u16)
        requires { length (packed_meaning self.old).waiting + 10 ≤ (packed_meaning self.old).capacity }
        ensures { Appended self.old (bits_of 10 character) self.new }
    {
        for k in 0..10 {
            self.append_bit(bit_of_character(character, k));
        }
    }
}

// Each call also says what the memory holds after it, and that it is still the memory that was lent.
// Kept: `lent` stands in each call, since each promises it to callers; the memory is a field, which a trait's clause cannot name.
impl Tap for PackedLine<'_> {
    ghost meaning = { packed_meaning };

    fn take(&mut self) -> Option<u8>
        ensures taken { Taken (packed_meaning self.old) result (packed_meaning self.new) }
        ensures bit { IsBit result }
        ensures still { DryStill result self.old self.new }
        ensures bytes { self.new.bytes.now ≡ self.old.bytes.now }
        ensures lent { self.new.bytes.ghost_name ≡ self.old.bytes.ghost_name }
    {
        let place = self.ring.advance()?;
        Some(bit_of_byte(self.bytes[place / 8], place))
    }

    fn count(&self) -> usize {
        self.ring.count()
    }
}

// Kept: put and turn check first in both lines and then write their own way; a trait for what they write has as many clauses again.
impl Line for PackedLine<'_> {
    fn capacity(&self) -> usize {
        self.ring.size()
    }

    fn put(&mut self, character: u16) -> Result<(), PutRefusal>
        ensures answer { numbered put_refusal result ≡ (putting (packed_meaning self.old) character).answer }
        ensures line { packed_meaning self.new ≡ (putting (packed_meaning self.old) character).line }
        ensures still { Still result self.old self.new }
        ensures bits { memory_bits self.new ≡ stored result (bits_put self.old character) (memory_bits self.old) }
        ensures lent { self.new.bytes.ghost_name ≡ self.old.bytes.ghost_name }
    {
        check_put(self, self.ring.size(), character)?;
        self.append(character);
        Ok(())
    }

    fn turn(&mut self, place: usize) -> Result<(), TurnRefusal>
        ensures answer { numbered turn_refusal result ≡ (turning (packed_meaning self.old) place).answer }
        ensures line { packed_meaning self.new ≡ (turning (packed_meaning self.old) place).line }
        ensures still { Still result self.old self.new }
        ensures bits { memory_bits self.new ≡ stored result (bits_turned self.old place) (memory_bits self.old) }
        ensures lent { self.new.bytes.ghost_name ≡ self.old.bytes.ghost_name }
    {
        check_turn(self, place)?;
        let place = self.ring.place(place);
        flip(self.bytes, place);
        Ok(())
    }
}
