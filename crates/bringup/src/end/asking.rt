// What can be asked of an end.
ghost use Rattle.std.specs.Prelude.{◌≡◌, ◌≤◌};
ghost use Rattle.bringup.specs.Signals.{idle_of};
ghost use Rattle.bringup.specs.Asking.{activity, sending, in_burst, sending_window, told_rate, outcome_in};

use crate::end::noting::WINDOW_IDLE;
use crate::end::{Activity, End, Outcome, Phase};
use crate::signal::{BURST_TICKS, Signal};

// Six times an idle and a burst, then idle, at tick `elapsed` of it.
fn signalling(signal: Signal, elapsed: u32) -> Activity
    ensures { result ≡ sending (in_burst (idle_of signal) elapsed) }
{
    let idle = signal.idle();
    let period = idle + BURST_TICKS;
    if elapsed < 6 * period && elapsed % period >= idle {
        Activity::Burst
    } else {
        Activity::Idle
    }
}

impl End {
    // What the end sends now.
    pub fn sends(&self) -> Activity
        ensures { result ≡ activity self.now }
    {
        match self.phase {
            Phase::SendingCominit => signalling(Signal::Cominit, self.elapsed),
            Phase::SendingComsas => signalling(Signal::Comsas, self.elapsed),
            Phase::Negotiating => self.sends_in_window(),
            _ => Activity::Idle,
        }
    }

    fn sends_in_window(&self) -> Activity
        ensures { result ≡ sending_window self.now.window self.now }
    {
        match self.window {
            Some(window) if self.rates.supports(window.rate) && self.elapsed >= WINDOW_IDLE => {
                if window.locked {
                    Activity::Align1
                } else {
                    Activity::Align0
                }
            }
            _ => Activity::Idle,
        }
    }

    // The latest window's rate, 1 to 4, or 0 before any.
    pub fn rate(&self) -> u8
        ensures { result ≡ told_rate self.now.window }
    {
        self.window.map_or(0, |window| u8::from(window.rate))
    }

    // Whether the end is ready, failed or neither.
    pub fn outcome(&self) -> Outcome
        ensures { result ≡ outcome_in self.now.phase }
    {
        match self.phase {
            Phase::Ready => Outcome::Ready,
            Phase::Failed => Outcome::Failed,
            _ => Outcome::Pending,
        }
    }
}
