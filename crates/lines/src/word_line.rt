// A line that keeps one character to a word of borrowed memory.
ghost use Rattle.std.specs.Prelude.{◌≡◌, ◌*◌, ◌<◌, ◌≤◌, length};
ghost use Rattle.line.specs.Writing.{line_capacity};

use line::ring::Ring;

mod placing;

// The words under a ring: those in use hold the characters, and some bits of the first may be gone.
#[derive(Drop)]
pub struct WordLine<'a> {
    words: &'a mut [u16],
    ring: Ring,
    gone: usize,
    ghost sized: { 10 * ring.size ≡ line_capacity (10 * length words.now) },
    ghost partial: { gone < 10 },
    ghost begun: { gone ≤ 9 * ring.count },
}
