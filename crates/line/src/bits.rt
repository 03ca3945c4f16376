// Bits of bytes, the highest of each first.
ghost use Rattle.std.specs.Prelude.{◌≡◌, ◌-◌, ◌/◌, ◌%◌, ◌^◌, ◌<◌};

// The bit at a place of a byte; the places of a row of bytes go on, eight to a byte.
pub fn bit_of_byte(byte: u8, place: usize) -> u8
    ensures value { result ≡ byte / 2 ^ (7 - place % 8) % 2 }
    ensures bit { result < 2 }
{
    (byte >> (7 - place % 8)) & 1
}
