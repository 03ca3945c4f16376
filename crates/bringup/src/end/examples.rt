// Worked examples: those of the code, and at the edges which idle is of which signal and which lock is in time.
ghost use Rattle.std.specs.Prelude.{◌≡◌, true};
ghost use Rattle.bringup.specs.Detection.{signal_of};
ghost use Rattle.bringup.specs.Examples.{in_first_window, sent_after_lock, Examples};

use crate::end::{Activity, End, Standing};
use crate::rate::{Rate, RateSet};
use crate::signal::Signal;

// What a burst finds after an idle of so many ticks.
fn signal_after(idle: u32) -> Option<Signal>
    ensures { result ≡ signal_of idle }
{
    let mut detector = End::new().detector;
    detector.idle = idle;
    detector.rise();
    detector.signal
}

// An end with all rates, so many ticks into its first window.
fn in_first_window(ticks: u32) -> End
    ensures { result ≡ in_first_window ticks }
{
    let mut end = End::new();
    end.rates = RateSet {
        g1: true,
        g2: true,
        g3: true,
    };
    end.open_window(Rate::G1, Standing::AfterInvalid);
    end.elapsed = ticks;
    end
}

// What that end sends when it notes there that it is locked.
fn sent_after_lock(ticks: u32) -> Activity
    ensures { result ≡ sent_after_lock ticks }
{
    let mut end = in_first_window(ticks);
    let _ = end.note(0, 3);
    end.sends()
}

// At the edges each idle is of its signal, or of none.
fn idles_hold() -> bool
    ensures { result ≡ true }
{
    signal_after(164) == None
        && signal_after(165) == Some(Signal::Comwake)
        && signal_after(525) == Some(Signal::Cominit)
        && signal_after(1_575) == Some(Signal::Comsas)
        && signal_after(4_725) == None
}

// The latest lock in time counts, and one a tick later does not.
fn locks_hold() -> bool
    ensures { result ≡ true }
{
    sent_after_lock(960 + 313_425) == Activity::Align1
        && sent_after_lock(960 + 313_426) == Activity::Align0
}

// Runs the worked examples.
pub fn examples_hold() -> bool
    ensures hold { result ≡ true }
    ensures examples { Examples }
{
    idles_hold() && locks_hold() && code::examples_hold()
}
