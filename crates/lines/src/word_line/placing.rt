// What a line over words does.
ghost use Rattle.std.specs.Prelude.{◌≡◌, ◌*◌, ◌<◌, length, slice_index};
ghost use Rattle.code.specs.Refusals.{numbered};
ghost use Rattle.line.specs.Waiting.{Taken, IsBit, DryStill, with_first};
ghost use Rattle.line.specs.Writing.{put_refusal, turn_refusal, memory_refusal, checking, empty_line, putting, turning, stored, Still};
ghost use Rattle.lines.specs.Words.{word_meaning, words_put, words_turned};

use crate::capacity::{capacity_over, check_memory};
use crate::character::bit_of_character;
use crate::checks::{check_put, check_turn};
use crate::word_line::WordLine;
use line::refusal::{MemoryRefusal, PutRefusal, TurnRefusal};
use line::ring::Ring;
use line::tap::{Line, Tap};

impl<'a> WordLine<'a> {
    // Checks memory for a line: its capacity, or a refusal where that is outside the range of lines.
    pub fn check(memory: &[u16]) -> Result<usize, MemoryRefusal>
        ensures { numbered memory_refusal result ≡ checking (10 * length memory.now) }
    {
        check_memory(10, memory.len())
    }

    // An empty line over the memory, which stays as it is; its capacity is 0 where that is outside the range.
    pub fn over(memory: &'a mut [u16]) -> WordLine<'a>
        ensures line { word_meaning result ≡ empty_line (10 * length memory.old) }
        ensures words { result.words.now ≡ memory.old }
        ensures lent { result.words.ghost_name ≡ memory.entry.ghost_name }
    {
        WordLine {
            ring: Ring::over(capacity_over(10, memory.len()) / 10),
            words: memory,
            gone: 0,
        }
    }

    // Lets the first bit go, and with its last bit the first character.
    fn let_go(&mut self)
        requires { 0 < self.old.ring.count }
        ensures line { word_meaning self.old ≡ with_first (slice_index (word_meaning self.old).waiting 0) (word_meaning self.new) }
        ensures words { self.new.words ≡ self.old.words }
    {
        if self.gone < 9 {
            self.gone += 1;
        } else {
            self.gone = 0;
            self.ring.advance();
        }
    }
}

// Each call also says what the memory holds after it, and that it is still the memory that was lent.
// Kept: `lent` stands in each call, since each promises it to callers; the memory is a field, which a trait's clause cannot name.
impl Tap for WordLine<'_> {
    ghost meaning = { word_meaning };

    fn take(&mut self) -> Option<u8>
        ensures taken { Taken (word_meaning self.old) result (word_meaning self.new) }
        ensures bit { IsBit result }
        ensures still { DryStill result self.old self.new }
        ensures words { self.new.words.now ≡ self.old.words.now }
        ensures lent { self.new.words.ghost_name ≡ self.old.words.ghost_name }
    {
        let place = self.ring.first()?;
        let bit = bit_of_character(self.words[place], self.gone);
        self.let_go();
        Some(bit)
    }

    fn count(&self) -> usize {
        10 * self.ring.count() - self.gone
    }
}

// Kept: put and turn check first in both lines and then write their own way; a trait for what they write has as many clauses again.
impl Line for WordLine<'_> {
    fn capacity(&self) -> usize {
        10 * self.ring.size()
    }

    fn put(&mut self, character: u16) -> Result<(), PutRefusal>
        ensures answer { numbered put_refusal result ≡ (putting (word_meaning self.old) character).answer }
        ensures line { word_meaning self.new ≡ (putting (word_meaning self.old) character).line }
        ensures still { Still result self.old self.new }
        ensures words { self.new.words.now ≡ stored result (words_put self.old character) self.old.words.now }
        ensures lent { self.new.words.ghost_name ≡ self.old.words.ghost_name }
    {
        check_put(self, 10 * self.ring.size(), character)?;
        if let Some(place) = self.ring.grow() {
            self.words[place] = character;
        }
        Ok(())
    }

    fn turn(&mut self, place: usize) -> Result<(), TurnRefusal>
        ensures answer { numbered turn_refusal result ≡ (turning (word_meaning self.old) place).answer }
        ensures line { word_meaning self.new ≡ (turning (word_meaning self.old) place).line }
        ensures still { Still result self.old self.new }
        ensures words { self.new.words.now ≡ stored result (words_turned self.old place) self.old.words.now }
        ensures lent { self.new.words.ghost_name ≡ self.old.words.ghost_name }
    {
        check_turn(self, place)?;
        let bit = self.gone + place;
        let at = self.ring.place(bit / 10);
        self.words[at] ^= 1 << (9 - bit % 10);
        Ok(())
    }
}
