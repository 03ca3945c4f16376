// Bits of a character's number, the first sent first.
ghost use Rattle.std.specs.Prelude.{◌≡◌, ◌<◌, slice_index};
ghost use Rattle.code.specs.Bits.{bits_of};

// The bit at a place.
pub fn bit_of_character(character: u16, place: usize) -> u8
    requires { place < 10 }
    ensures value { result ≡ slice_index (bits_of 10 character) place }
    ensures bit { result < 2 }
{
    ((character >> (9 - place)) & 1) as u8
}
