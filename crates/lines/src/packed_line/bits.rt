// Writes to bytes as one list of bits, the highest bit of each byte first.
ghost use Rattle.std.specs.Prelude.{◌≡◌, ◌*◌, ◌<◌, length, slice_set};
ghost use Rattle.code.specs.Bits.{inverted};
ghost use Rattle.lines.specs.Packed.{byte_bits};

use line::bits::bit_of_byte;

// Inverts the bit at a place.
pub fn flip(bytes: &mut [u8], place: usize)
    requires { place < 8 * length bytes.old }
    ensures { byte_bits bytes.new ≡ inverted (byte_bits bytes.old) place }
{
    bytes[place / 8] ^= 1 << (7 - place % 8);
}

// Writes the bit at a place.
pub fn set_bit(bytes: &mut [u8], place: usize, bit: u8)
    requires { (place < 8 * length bytes.old) × (bit < 2) }
    ensures { byte_bits bytes.new ≡ slice_set (byte_bits bytes.old) place bit }
{
    if bit_of_byte(bytes[place / 8], place) != bit {
        flip(bytes, place);
    }
}
