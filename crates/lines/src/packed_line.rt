// A line that packs its bits in borrowed bytes, the highest bit of a byte first.
ghost use Rattle.std.specs.Prelude.{◌≡◌, ◌*◌, length};
ghost use Rattle.line.specs.Writing.{line_capacity};

use line::ring::Ring;

mod bits;
mod packing;

// The first bits of the bytes, as many as the ring has places: those in use wait.
#[derive(Drop)]
pub struct PackedLine<'a> {
    bytes: &'a mut [u8],
    ring: Ring,
    ghost sized: { ring.size ≡ line_capacity (8 * length bytes.now) },
}
