// Opening a sender from an end that is ready.
ghost use Rattle.std.specs.Prelude.{◌≡◌};
ghost use Rattle.link.specs.Opening.{open_refusal, opened, opening};

use crate::sender::{OpenRefusal, Sender};
use bringup::end::{End, Outcome};
use code::refusal::Refusal;

impl Refusal for OpenRefusal {
    ghost number_of = { λ r. (open_refusal r).number };

    fn number(&self) -> u8 {
        match self {
            OpenRefusal::DisparityAboveOne(_) => 14,
            OpenRefusal::NotReady(_) => 13,
        }
    }
}

impl OpenRefusal {
    // The end that was to be opened from, as it was.
    pub fn into_end(self) -> End
        ensures { result ≡ (open_refusal self).end }
    {
        match self {
            OpenRefusal::DisparityAboveOne(end) => end,
            OpenRefusal::NotReady(end) => end,
        }
    }
}

impl Sender {
    // A sender at a disparity, for an end that is ready; else the end comes back.
    pub fn open(end: End, disparity: u8) -> Result<Sender, OpenRefusal>
        ensures { opened result ≡ opening end disparity }
    {
        if disparity > 1 {
            return Err(OpenRefusal::DisparityAboveOne(end));
        }
        match end.outcome() {
            Outcome::Ready => Ok(Sender { disparity }),
            Outcome::Pending | Outcome::Failed => Err(OpenRefusal::NotReady(end)),
        }
    }
}
