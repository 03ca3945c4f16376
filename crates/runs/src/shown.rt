// How the two ends are told apart in print.
ghost use Rattle.std.specs.Prelude.{Some};
ghost use Rattle.runs.specs.Shown.{which_text};

use crate::ends::WhichEnd;
use std::fmt;

impl fmt::Display for WhichEnd {
    ghost output = { λ x. Some (which_text x) };

    fn fmt<W: fmt::Write>(&self, f: &mut fmt::Formatter<W>) -> fmt::Result {
        match self {
            WhichEnd::First => write!(f, "first"),
            WhichEnd::Second => write!(f, "second"),
        }
    }
}
