// What a receiver tells besides the dwords that it hands out, and how it is printed.
ghost use Rattle.std.specs.Prelude.{◌≡◌, Some};
ghost use Rattle.reports.specs.Shown.{settlement_report, bad_report, report_text, end_text};

use link::heard::{BadDword, Settlement, Span};
use std::fmt;

// A bad dword; the mask adds 1, 2, 4 and 8 for the refused characters at places 0 to 3.
#[derive(Clone, Copy, PartialEq, Eq, Debug)]
pub struct BadReport {
    pub number: u32,
    pub mask: u8,
}

#[derive(Clone, Copy, PartialEq, Eq, Debug)]
pub enum Report {
    Gained,
    Slip,
    Vouched(Span),
    Doubtful(Span),
    Bad(BadReport),
    Lost,
}

// The end of a tap, after so many bits.
#[derive(Clone, Copy, PartialEq, Eq, Debug)]
pub struct EndOfTap {
    pub bits: usize,
}

impl From<BadDword> for BadReport {
    ghost from_gives = { λ bad report. report ≡ bad_report bad };

    fn from(bad: BadDword) -> BadReport {
        BadReport {
            number: bad.number,
            mask: bad.mask,
        }
    }
}

impl From<Settlement> for Report {
    ghost from_gives = { λ settlement report. report ≡ settlement_report settlement };

    fn from(settlement: Settlement) -> Report {
        match settlement {
            Settlement::Vouched(span) => Report::Vouched(span),
            Settlement::Doubtful(span) => Report::Doubtful(span),
        }
    }
}

impl fmt::Display for Report {
    ghost output = { λ x. Some (report_text x) };

    fn fmt<W: fmt::Write>(&self, f: &mut fmt::Formatter<W>) -> fmt::Result {
        match *self {
            Report::Gained => write!(f, "gained"),
            Report::Slip => write!(f, "slip"),
            Report::Vouched(Span { first, last }) => write!(f, "vouched {first} {last}"),
            Report::Doubtful(Span { first, last }) => write!(f, "doubtful {first} {last}"),
            Report::Bad(BadReport { number, mask }) => write!(f, "bad {number} {mask}"),
            Report::Lost => write!(f, "lost"),
        }
    }
}

impl fmt::Display for EndOfTap {
    ghost output = { λ x. Some (end_text x.bits) };

    fn fmt<W: fmt::Write>(&self, f: &mut fmt::Formatter<W>) -> fmt::Result {
        let bits = self.bits;
        write!(f, "end {bits}")
    }
}
