// Recordings: bits kept in records of 16 bytes, of which the first counts the bits that the others hold.
ghost use Rattle.std.specs.Prelude.{◌≡◌, ◌≤◌, [], length, drop, slice_index_or};
ghost use Rattle.line.specs.Records.{records, held_bits};

use crate::record::{bit_at, first_fault, held, records};
use crate::tap::Tap;
use code::refusal::Refusal;

// What is wrong with one record.
#[derive(Clone, Copy, PartialEq, Eq, Debug)]
pub enum RecordFault {
    TooManyBits,
    BitBeyond,
}

// Why a recording is not opened; a faulty record goes by its number, from 0.
#[derive(Clone, Copy, PartialEq, Eq, Debug)]
pub enum RecordingFault {
    WrongLength,
    InRecord(usize, RecordFault),
}

impl Refusal for RecordingFault {
    ghost use Rattle.line.specs.Opening.{recording_refusal};

    ghost number_of = { λ fault. (recording_refusal fault).number };

    fn number(&self) -> u8 {
        match self {
            RecordingFault::WrongLength => 15,
            RecordingFault::InRecord(_, RecordFault::TooManyBits) => 16,
            RecordingFault::InRecord(_, RecordFault::BitBeyond) => 17,
        }
    }
}

// A place in a recording: a record, and how many of its bits are gone.
#[derive(Clone, Copy)]
struct Place {
    index: usize,
    gone: usize,
}

// A tap over the bits in borrowed bytes, and the place that it has come to.
#[derive(Drop)]
pub struct Recording<'a> {
    bytes: &'a [u8],
    place: Place,
    ghost within: { place.gone ≤ length (held_bits (slice_index_or (records bytes.now) place.index [])) },
}

impl<'a> Recording<'a> {
    ghost use Rattle.line.specs.Opening.{opening, opened, OverBytes};
    ghost use Rattle.line.specs.Recordings.{gone_from, FirstPlace};

    // Opens the recording that the bytes hold, or answers the first fault in them.
    pub fn open(bytes: &'a [u8]) -> Result<Recording<'a>, RecordingFault>
        ensures answer { opened result ≡ opening bytes.now }
        ensures bytes { OverBytes bytes.now result }
    {
        if bytes.len() > 65_536 || bytes.len() % 16 != 0 {
            return Err(RecordingFault::WrongLength);
        }
        match first_fault(bytes) {
            Some(fault) => Err(fault),
            None => Ok(Recording {
                bytes,
                place: Place { index: 0, gone: 0 },
            }),
        }
    }

    // The records from the one that it has come to on.
    fn records_left(&self) -> &[[u8; 16]]
        ensures { result.now ≡ drop self.now.place.index (records self.now.bytes.now) }
    {
        let records = records(self.bytes);
        &records[self.place.index.min(records.len())..]
    }

    // How many bits are gone from a record, which is the one that it has come to or a later one.
    fn gone_from(&self, index: usize) -> usize
        ensures { result ≡ gone_from self.now.place index }
    {
        if index == self.place.index {
            self.place.gone
        } else {
            0
        }
    }

    // The place of the bit that waits first; records with no more bits are passed over.
    fn first_place(&self) -> Option<Place>
        ensures { FirstPlace self.now.bytes.now self.now.place result }
    {
        let records = records(self.bytes);
        let index = (self.place.index..records.len()).find(|index| self.gone_from(*index)
            < held(&records[*index]))?;
        Some(Place {
            index,
            gone: self.gone_from(index),
        })
    }
}

impl Tap for Recording<'_> {
    ghost use Rattle.line.specs.Recordings.{recording_meaning};

    ghost meaning = { recording_meaning };

    fn take(&mut self) -> Option<u8> {
        let Place { index, gone } = self.first_place()?;
        self.place = Place {
            index,
            gone: gone + 1,
        };
        Some(bit_at(&records(self.bytes)[index], gone))
    }

    fn count(&self) -> usize {
        let left = self.records_left().iter();
        left.map(held).sum::<usize>() - self.place.gone
    }

    fn is_dry(&self) -> bool {
        self.first_place().is_none()
    }
}

#[cfg(test)]
mod tests {
    use super::*;
    use code::refusal::answer_number;
    use std::test::Fail;

    // A record whose bits are 1, 0, 1.
    fn three_bits() -> [u8; 16] {
        let mut bytes = [0; 16];
        bytes[0] = 3;
        bytes[1] = 0b1010_0000;
        bytes
    }

    #[test]
    fn empty_is_dry(rt: HostRuntime) -> Result<(), Fail> {
        let mut recording = Recording::open(&[])?;
        assert_eq!(rt; recording.count(), 0);
        assert_eq!(rt; recording.take(), None);
        Ok(())
    }

    #[test]
    fn bits_in_order(rt: HostRuntime) -> Result<(), Fail> {
        let bytes = three_bits();
        let mut recording = Recording::open(&bytes)?;
        assert_eq!(rt; recording.count(), 3);
        assert_eq!(rt; recording.take(), Some(1));
        assert_eq!(rt; recording.take(), Some(0));
        assert_eq!(rt; recording.take(), Some(1));
        assert_eq!(rt; recording.take(), None);
        Ok(())
    }

    #[test]
    fn refused_at_the_edges(rt: HostRuntime) {
        let mut bytes = three_bits();
        assert_eq!(rt; answer_number(&Recording::open(&bytes[0..15])), 15);
        assert_eq!(rt; answer_number(&Recording::open(&bytes)), 0);
        bytes[1] = 0b1011_0000;
        assert_eq!(rt; answer_number(&Recording::open(&bytes)), 17);
        bytes[0] = 120;
        assert_eq!(rt; answer_number(&Recording::open(&bytes)), 0);
        bytes[0] = 121;
        assert_eq!(rt; answer_number(&Recording::open(&bytes)), 16);
    }
}
