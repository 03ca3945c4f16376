// How what an end sends and what became of it are printed.
ghost use Rattle.std.specs.Prelude.{Some};
ghost use Rattle.bringup.specs.Shown.{activity_text, outcome_text};

use crate::end::{Activity, Outcome};
use std::fmt;

impl fmt::Display for Activity {
    ghost output = { λ x. Some (activity_text x) };

    fn fmt<W: fmt::Write>(&self, f: &mut fmt::Formatter<W>) -> fmt::Result {
        match self {
            Activity::Idle => write!(f, "idle"),
            Activity::Burst => write!(f, "burst"),
            Activity::Align0 => write!(f, "ALIGN(0)"),
            Activity::Align1 => write!(f, "ALIGN(1)"),
        }
    }
}

impl fmt::Display for Outcome {
    ghost output = { λ x. Some (outcome_text x) };

    fn fmt<W: fmt::Write>(&self, f: &mut fmt::Formatter<W>) -> fmt::Result {
        match self {
            Outcome::Pending => write!(f, "neither"),
            Outcome::Ready => write!(f, "ready"),
            Outcome::Failed => write!(f, "failed"),
        }
    }
}
