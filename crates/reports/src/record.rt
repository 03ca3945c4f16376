// Dwords that were handed out, and how they are printed.
ghost use Rattle.std.specs.Prelude.{◌≡◌, Some};
ghost use Rattle.reports.specs.Shown.{dword_record, dword_text};

use link::dword::Dword;
use link::heard::GoodDword;
use std::fmt;

// A dword that was handed out, with its number.
#[derive(Clone, Copy, PartialEq, Eq, Default, Debug)]
pub struct DwordRecord {
    pub number: u32,
    pub dword: Dword,
}

impl From<GoodDword> for DwordRecord {
    ghost from_gives = { λ good dword. dword ≡ dword_record good };

    fn from(good: GoodDword) -> DwordRecord {
        DwordRecord {
            number: good.number,
            dword: good.dword,
        }
    }
}

impl fmt::Display for DwordRecord {
    ghost output = { λ x. Some (dword_text x) };

    fn fmt<W: fmt::Write>(&self, f: &mut fmt::Formatter<W>) -> fmt::Result {
        let number = self.number;
        let Dword {
            kind,
            b0,
            b1,
            b2,
            b3,
        } = self.dword;
        write!(
            f,
            "dword {number} {kind} {b0:02X} {b1:02X} {b2:02X} {b3:02X}"
        )
    }
}
