// What an end came to, and how it is printed.
use bringup::end::{End, Outcome};
use runs::ends::WhichEnd;
use std::fmt;

#[derive(Clone, Copy)]
pub struct Ending {
    which: WhichEnd,
    outcome: Outcome,
    rate: u8,
}

impl Ending {
    pub fn of(which: WhichEnd, end: &End) -> Ending {
        Ending {
            which,
            outcome: end.outcome(),
            rate: end.rate(),
        }
    }
}

impl fmt::Display for Ending {
    fn fmt<W: fmt::Write>(&self, f: &mut fmt::Formatter<W>) -> fmt::Result {
        match self.outcome {
            Outcome::Pending => write!(f, "{}: neither ready nor failed", self.which),
            Outcome::Ready => write!(f, "{}: ready at rate {}", self.which, self.rate),
            Outcome::Failed => write!(f, "{}: failed", self.which),
        }
    }
}
