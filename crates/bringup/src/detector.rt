// What an end has heard of the other's signals.
ghost use Rattle.std.specs.Prelude.{◌≡◌};
ghost use Rattle.bringup.specs.Detection.{signal_of, alike_after, passed, risen, ceased};
ghost use Rattle.bringup.specs.Bringup.{signalled};
ghost use Rattle.bringup.specs.Skipping.{capped, rested, detector_calm, OnlyRests};

use crate::end::MOST_TICKS;
use crate::signal::Signal;

// From this many ticks on an idle is no signal's.
const LONGEST_IDLE: u32 = 4_725;

// The idle so far, counted up to the longest that matters; whether a burst is heard; what the latest closed idle was of,
// and how many like it stand in a row, up to four; which signals are detected; and whether COMSAS has fallen since.
#[derive(Clone, Copy, PartialEq, Eq, Debug, Default)]
pub struct Detector {
    pub idle: u32,
    pub burst: bool,
    pub signal: Option<Signal>,
    pub alike: u8,
    pub cominit: bool,
    pub comsas: bool,
    pub fallen: bool,
}

// The signal that an idle of so many ticks belongs to.
fn signal_of(idle: u32) -> Option<Signal>
    ensures { result ≡ signal_of idle }
{
    match idle {
        165..525 => Some(Signal::Comwake),
        525..1_575 => Some(Signal::Cominit),
        1_575..LONGEST_IDLE => Some(Signal::Comsas),
        _ => None,
    }
}

// How many like idles stand in a row with one more, which is of `signal`, after `count` of `before`.
fn alike_after(signal: Option<Signal>, before: Option<Signal>, count: u8) -> u8
    ensures { result ≡ alike_after signal before count }
{
    if signal.is_none() {
        0
    } else if signal != before {
        1
    } else if count < 4 {
        count + 1
    } else {
        count
    }
}

// `from` counted up by `count`, to at most `cap`.
pub fn count_up(cap: u32, from: u32, count: u32) -> u32
    ensures { result ≡ capped cap from count }
{
    from + count.min(cap.saturating_sub(from))
}

impl Detector {
    // Whether COMINIT or COMSAS has been detected.
    pub fn has_detected(&self) -> bool
        ensures { result ≡ signalled self.now }
    {
        self.cominit || self.comsas
    }

    // A tick goes by.
    pub fn pass(&mut self)
        ensures { self.new ≡ passed self.old }
    {
        if self.burst {
            return;
        }
        if self.idle < LONGEST_IDLE {
            self.idle += 1;
        }
        if self.comsas && self.idle >= LONGEST_IDLE {
            self.fallen = true;
        }
    }

    // A burst starts, and closes an idle.
    pub fn rise(&mut self)
        ensures { self.new ≡ risen self.old }
    {
        if self.burst {
            return;
        }
        let signal = signal_of(self.idle);
        let alike = alike_after(signal, self.signal, self.alike);
        self.burst = true;
        self.signal = signal;
        self.alike = alike;
        if alike >= 4 {
            match signal {
                Some(Signal::Cominit) => self.cominit = true,
                Some(Signal::Comsas) => self.comsas = true,
                Some(Signal::Comwake) | None => {}
            }
        }
    }

    // A burst ends, and an idle begins.
    pub fn cease(&mut self)
        ensures { self.new ≡ ceased self.old }
    {
        self.burst = false;
        self.idle = 0;
    }

    // For how many ticks COMSAS does not fall.
    pub fn calm(&self) -> u32
        ensures longest { result ≡ detector_calm self.now }
        ensures rests { OnlyRests result self.now }
    {
        if self.burst || !self.comsas || self.fallen {
            MOST_TICKS
        } else {
            (LONGEST_IDLE - 1).saturating_sub(self.idle)
        }
    }

    // So many ticks go by in which COMSAS does not fall.
    pub fn rest(&mut self, count: u32)
        ensures { self.new ≡ rested count self.old }
    {
        if !self.burst {
            self.idle = count_up(LONGEST_IDLE, self.idle, count);
        }
    }
}
