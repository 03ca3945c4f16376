// Rates of speed negotiation windows, and sets of supported ones.
ghost use Rattle.std.specs.Prelude.{◌≡◌};
ghost use Rattle.bringup.specs.Rates.{supports, past_highest, next_rate, previous_rate, rate_number};
ghost use Rattle.bringup.specs.Bringup.{rates_numbered};

use crate::end::noting::StartRefusal;

// The three rates that an end may support, and a fourth that none does.
#[derive(Clone, Copy, PartialEq, Eq, Debug)]
pub enum Rate {
    G1 = 1,
    G2 = 2,
    G3 = 3,
    G4 = 4,
}

#[derive(Clone, Copy, PartialEq, Eq, Debug, Default)]
pub struct RateSet {
    pub g1: bool,
    pub g2: bool,
    pub g3: bool,
}

// The set of a number, in which G1 counts 1, G2 2 and G3 4.
impl TryFrom<u8> for RateSet {
    type Error = StartRefusal;

    ghost try_from_gives = { λ number result. result ≡ rates_numbered number };

    fn try_from(number: u8) -> Result<RateSet, StartRefusal> {
        if number == 0 || number > 7 {
            return Err(StartRefusal::RateSetOutside);
        }
        Ok(RateSet {
            g1: number % 2 == 1,
            g2: number / 2 % 2 == 1,
            g3: number >= 4,
        })
    }
}

impl RateSet {
    pub fn supports(&self, rate: Rate) -> bool
        ensures { result ≡ supports self.now rate }
    {
        match rate {
            Rate::G1 => self.g1,
            Rate::G2 => self.g2,
            Rate::G3 => self.g3,
            Rate::G4 => false,
        }
    }

    // Whether a rate is one above the highest of the set.
    pub fn ends_below(&self, rate: Rate) -> bool
        ensures { result ≡ past_highest self.now rate }
    {
        match rate {
            Rate::G1 => false,
            Rate::G2 => !(self.g2 || self.g3),
            Rate::G3 => self.g2 && !self.g3,
            Rate::G4 => self.g3,
        }
    }
}

impl Rate {
    // The rate of the next window; above the fourth there is none.
    pub fn next(self) -> Rate
        ensures { result ≡ next_rate self }
    {
        match self {
            Rate::G1 => Rate::G2,
            Rate::G2 => Rate::G3,
            Rate::G3 | Rate::G4 => Rate::G4,
        }
    }

    // The rate of the window before; below the first there is none.
    pub fn previous(self) -> Rate
        ensures { result ≡ previous_rate self }
    {
        match self {
            Rate::G1 | Rate::G2 => Rate::G1,
            Rate::G3 => Rate::G2,
            Rate::G4 => Rate::G3,
        }
    }
}

impl From<Rate> for u8 {
    ghost from_gives = { λ rate number. number ≡ rate_number rate };

    fn from(rate: Rate) -> u8 {
        rate as u8
    }
}
