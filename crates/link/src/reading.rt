// Characters as a receiver reads them, and the four of a dword.
ghost use Rattle.std.specs.Prelude.{◌≡◌, ◌≤◌, if◌then◌else◌};
ghost use Rattle.link.specs.Readings.{placed, is_refused, code_of, weight, mask, is_good, dword, own_verdict, verdict};

use crate::dword::Dword;
use code::{Code, Kind};

// What a character was read as: refused, or a code, by whether its two columns are alike.
#[derive(Clone, Copy, PartialEq, Eq, Debug)]
pub enum Reading {
    Refused,
    Like(Code),
    Unlike(Code),
}

// The readings of a dword's four characters.
// Kept: four named fields, as what is said of a dword's places has a field for each.
#[derive(Clone, Copy, PartialEq, Eq, Debug)]
pub struct Readings {
    pub first: Reading,
    pub second: Reading,
    pub third: Reading,
    pub fourth: Reading,
}

// What a character that is refused or has unlike columns says of the open stretch.
#[derive(Clone, Copy, PartialEq, Eq, Debug)]
pub enum Verdict {
    Vouches,
    Doubts,
}

impl Reading {
    // A code that stands at a place; a special one is refused but at place 0.
    pub fn at_place(place: u8, code: Code) -> Reading
        ensures { result ≡ placed place code }
    {
        if place > 0 && code.kind == Kind::Special {
            return Reading::Refused;
        }
        if code.has_unlike_columns() {
            Reading::Unlike(code)
        } else {
            Reading::Like(code)
        }
    }

    fn is_refused(self) -> bool
        ensures { result ≡ is_refused self }
    {
        matches!(self, Reading::Refused)
    }

    // The code, of which a refused character has none.
    fn code(self) -> Option<Code>
        ensures { result ≡ (if is_refused self then None else Some (code_of self)) }
    {
        match self {
            Reading::Refused => None,
            Reading::Like(code) | Reading::Unlike(code) => Some(code),
        }
    }

    // The number where the character is refused, else 0.
    fn weight(self, number: u8) -> u8
        ensures { (result ≡ weight self number) × (result ≤ number) }
    {
        if self.is_refused() { number } else { 0 }
    }

    // What the character says of the open stretch, if anything.
    fn verdict(self) -> Option<Verdict>
        ensures { result ≡ own_verdict self }
    {
        match self {
            Reading::Refused => Some(Verdict::Doubts),
            Reading::Like(_) => None,
            Reading::Unlike(_) => Some(Verdict::Vouches),
        }
    }
}

impl Readings {
    // The sum of 1, 2, 4 and 8 for the refused places 0 to 3.
    pub fn mask(self) -> u8
        ensures { result ≡ mask self }
    {
        self.first.weight(1) + self.second.weight(2) + self.third.weight(4) + self.fourth.weight(8)
    }

    // The dword that four good characters make; with a refused one there is none.
    pub fn dword(self) -> Option<Dword>
        ensures { result ≡ (if is_good self then Some (dword self) else None) }
    {
        let first = self.first.code()?;
        Some(Dword {
            kind: first.kind.into(),
            b0: first.byte,
            b1: self.second.code()?.byte,
            b2: self.third.code()?.byte,
            b3: self.fourth.code()?.byte,
        })
    }

    // What the first character that says something says.
    pub fn verdict(self) -> Option<Verdict>
        ensures { result ≡ verdict self }
    {
        let later = self.third.verdict().or(self.fourth.verdict());
        self.first.verdict().or(self.second.verdict()).or(later)
    }
}
