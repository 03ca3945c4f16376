// How many bits a line over some memory can hold.
ghost use Rattle.std.specs.Prelude.{◌≡◌, ◌*◌};
ghost use Rattle.code.specs.Refusals.{numbered};
ghost use Rattle.line.specs.Writing.{memory_refusal, line_capacity, checking};

use line::refusal::MemoryRefusal;

// The fewest and the most bits that a line can hold.
const FEWEST: usize = 40;

const MOST: usize = 65_530;

// Checks memory of so many elements, each of so many bits, for a line.
pub fn check_memory(bits: usize, elements: usize) -> Result<usize, MemoryRefusal>
    ensures { numbered memory_refusal result ≡ checking (bits * elements) }
{
    let tens = bits.saturating_mul(elements) / 10 * 10;
    if tens < FEWEST || tens > MOST {
        return Err(MemoryRefusal::OutOfRange);
    }
    Ok(tens)
}

// The capacity of a line over such memory.
pub fn capacity_over(bits: usize, elements: usize) -> usize
    ensures { result ≡ line_capacity (bits * elements) }
{
    check_memory(bits, elements).unwrap_or(0)
}
