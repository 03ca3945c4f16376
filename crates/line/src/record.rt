// Records: 16 bytes, of which the first counts the bits that the others hold.
ghost use Rattle.std.specs.Prelude.{◌≡◌, ◌<◌, ◌≤◌, length, slice_index};
ghost use Rattle.line.specs.Opening.{record_fault, first_fault};
ghost use Rattle.line.specs.Records.{records, bit_places, held_bits};

use crate::bits::bit_of_byte;
use crate::recording::{RecordFault, RecordingFault};

// The records that the bytes have.
pub fn records(bytes: &[u8]) -> &[[u8; 16]]
    ensures { result.now ≡ records bytes.now }
{
    let (records, _) = bytes.as_chunks::<16>();
    &records[..records.len().min(4096)]
}

// How many bits a record holds.
pub fn held(block: &[u8; 16]) -> usize
    ensures count { result ≡ length (held_bits block.now) }
    ensures few { result ≤ 120 }
{
    (block[0] as usize).min(120)
}

// The bit at a place of a record.
pub fn bit_at(block: &[u8; 16], place: usize) -> u8
    requires { place < 120 }
    ensures place { result ≡ slice_index (bit_places block.now) place }
    ensures bit { result < 2 }
{
    bit_of_byte(block[1 + place / 8], place)
}

// What is wrong with a record, if anything.
fn record_fault(block: &[u8; 16]) -> Option<RecordFault>
    ensures { result ≡ record_fault block.now }
{
    let count = block[0] as usize;
    if count > 120 {
        return Some(RecordFault::TooManyBits);
    }
    (count..120)
        .any(|place| bit_at(block, place) != 0)
        .then_some(RecordFault::BitBeyond)
}

// The first fault in the records.
pub fn first_fault(bytes: &[u8]) -> Option<RecordingFault>
    ensures { result ≡ first_fault 0 (records bytes.now) }
{
    for (index, block) in records(bytes).iter().enumerate() {
        if let Some(fault) = record_fault(block) {
            return Some(RecordingFault::InRecord(index, fault));
        }
    }
    None
}
