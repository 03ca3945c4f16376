// Starting an end, and noting what it hears: time passes tick by tick, and then the sign follows.
ghost use Rattle.std.specs.Prelude.{◌≡◌, ◌≤◌, min};
ghost use Rattle.code.specs.Refusals.{numbered};
ghost use Rattle.bringup.specs.Bringup.{entered, opened, awaited, awaited_fall, closed_window, settled, tick, ticks, signed, sign_numbered, unused, start_refusal, note_refusal, starting, noting};
ghost use Rattle.bringup.specs.Skipping.{skipped, timer, has_run_out, detector_calm, phase_calm, OnlyRests, NothingDue};

use crate::detector::{Detector, count_up};
use crate::end::{End, MOST_TICKS, Phase, Sign, Standing, Window};
use crate::rate::{Rate, RateSet};
use crate::signal::Signal;
use code::refusal::Refusal;

// How long an end waits after COMSAS for the other's.
const COMSAS_WAIT: u32 = 32_640;

// A window is idle at first; how long it lasts, and until when a lock counts.
pub(crate) const WINDOW_IDLE: u32 = 960;

const WINDOW_TICKS: u32 = WINDOW_IDLE + 327_680;

const LATEST_LOCK: u32 = WINDOW_IDLE + 313_425;

#[derive(Clone, Copy, PartialEq, Eq, Debug)]
pub enum StartRefusal {
    RateSetOutside,
    StartedBefore,
}

#[derive(Clone, Copy, PartialEq, Eq, Debug)]
pub enum NoteRefusal {
    TooManyTicks,
    SignOutside,
    NotStarted,
}

impl Refusal for StartRefusal {
    ghost number_of = { λ r. (start_refusal r).number };

    fn number(&self) -> u8 {
        match self {
            StartRefusal::RateSetOutside => 8,
            StartRefusal::StartedBefore => 9,
        }
    }
}

impl Refusal for NoteRefusal {
    ghost number_of = { λ r. (note_refusal r).number };

    fn number(&self) -> u8 {
        match self {
            NoteRefusal::TooManyTicks => 10,
            NoteRefusal::SignOutside => 11,
            NoteRefusal::NotStarted => 12,
        }
    }
}

// The sign of a number: 0 nothing, 1 a burst starts, 2 a burst ends, 3 locked, 4 ALIGN(1).
impl TryFrom<u8> for Sign {
    type Error = NoteRefusal;

    ghost try_from_gives = { λ number result. result ≡ sign_numbered number };

    fn try_from(number: u8) -> Result<Sign, NoteRefusal> {
        match number {
            0 => Ok(Sign::Nothing),
            1 => Ok(Sign::BurstStarts),
            2 => Ok(Sign::BurstEnds),
            3 => Ok(Sign::Locked),
            4 => Ok(Sign::Align1),
            _ => Err(NoteRefusal::SignOutside),
        }
    }
}

impl End {
    // An end that nobody has used.
    pub fn new() -> Self
        ensures { result ≡ unused }
    {
        End {
            rates: RateSet::default(),
            phase: Phase::Unstarted,
            elapsed: 0,
            detector: Detector::default(),
            window: None,
        }
    }

    // Starts the end with a set of rates, in which G1 counts 1, G2 2 and G3 4.
    // Kept: a number for the set, which is refused by number.
    pub fn start(&mut self, rates: u8) -> Result<(), StartRefusal>
        ensures answer { numbered start_refusal result ≡ (starting rates self.old).answer }
        ensures end { self.new ≡ (starting rates self.old).end }
    {
        let rates = RateSet::try_from(rates)?;
        if self.phase != Phase::Unstarted {
            return Err(StartRefusal::StartedBefore);
        }
        *self = End::new();
        self.rates = rates;
        self.phase = Phase::SendingCominit;
        Ok(())
    }

    // So many ticks pass, and then the sign is noted: 0 nothing, 1 a burst starts, 2 a burst ends, 3 locked, 4 ALIGN(1).
    // Kept: a number for the sign, which is refused by number.
    pub fn note(&mut self, ticks: u32, sign: u8) -> Result<(), NoteRefusal>
        ensures answer { numbered note_refusal result ≡ (noting ticks sign self.old).answer }
        ensures end { self.new ≡ (noting ticks sign self.old).end }
    {
        if ticks > MOST_TICKS {
            return Err(NoteRefusal::TooManyTicks);
        }
        let sign = Sign::try_from(sign)?;
        if self.phase == Phase::Unstarted {
            return Err(NoteRefusal::NotStarted);
        }
        self.advance(ticks);
        self.sign(sign);
        Ok(())
    }

    fn enter(&mut self, phase: Phase)
        ensures { self.new ≡ entered phase self.old }
    {
        self.phase = phase;
        self.elapsed = 0;
    }

    pub(crate) fn open_window(&mut self, rate: Rate, standing: Standing)
        ensures { self.new ≡ opened rate standing self.old }
    {
        self.phase = Phase::Negotiating;
        self.elapsed = 0;
        self.window = Some(Window {
            rate,
            standing,
            locked: false,
            aligned: false,
        });
    }

    // COMINIT is sent.
    fn after_cominit(&mut self)
        ensures { self.new ≡ awaited self.old }
    {
        if self.detector.has_detected() {
            self.enter(Phase::SendingComsas);
        } else {
            self.enter(Phase::Awaiting);
        }
    }

    // COMSAS is sent.
    fn after_comsas(&mut self)
        ensures { self.new ≡ awaited_fall self.old }
    {
        if self.detector.fallen {
            self.open_window(Rate::G1, Standing::AfterInvalid);
        } else {
            self.enter(Phase::Falling);
        }
    }

    fn close_window(&mut self)
        ensures { self.new ≡ closed_window self.old.window self.old }
    {
        let Some(window) = self.window else { return };
        let rate = window.rate;
        match (window.standing, window.aligned) {
            (Standing::Final, true) => self.enter(Phase::Ready),
            (Standing::Final, false) => self.enter(Phase::Failed),
            (_, true) => self.open_window(rate.next(), Standing::AfterValid),
            (Standing::AfterValid, false) => self.open_window(rate.previous(), Standing::Final),
            (_, false) if self.rates.ends_below(rate) => self.enter(Phase::Failed),
            (_, false) => self.open_window(rate.next(), Standing::AfterInvalid),
        }
    }

    // How long the phase lasts, if it ends by itself.
    fn timer(&self) -> Option<u32>
        ensures { result ≡ timer self.now.phase self.now }
    {
        match self.phase {
            Phase::SendingCominit => Some(Signal::Cominit.ticks()),
            Phase::SendingComsas => Some(Signal::Comsas.ticks()),
            Phase::Falling if !self.detector.comsas => Some(COMSAS_WAIT),
            Phase::Negotiating => Some(WINDOW_TICKS),
            _ => None,
        }
    }

    // Whether the phase has lasted so long.
    fn is_over(&self) -> bool
        ensures { result ≡ has_run_out (timer self.now.phase self.now) self.now.elapsed }
    {
        self.timer().is_some_and(|ticks| self.elapsed >= ticks)
    }

    // The transition that is due, if one is.
    fn settle(&mut self)
        ensures { self.new ≡ settled self.old.phase self.old }
    {
        match self.phase {
            Phase::SendingCominit if self.is_over() => self.after_cominit(),
            Phase::Awaiting if self.detector.has_detected() => self.enter(Phase::SendingComsas),
            Phase::SendingComsas if self.is_over() => self.after_comsas(),
            Phase::Falling if self.detector.fallen => self.open_window(
                Rate::G1,
                Standing::AfterInvalid,
            ),
            Phase::Falling if self.is_over() => self.enter(Phase::Failed),
            Phase::Negotiating if self.is_over() => self.close_window(),
            _ => {}
        }
    }

    fn tick(&mut self)
        ensures { self.new ≡ tick self.old }
    {
        if self.elapsed < WINDOW_TICKS {
            self.elapsed += 1;
        }
        self.detector.pass();
        self.settle();
    }

    fn sign(&mut self, sign: Sign)
        ensures { self.new ≡ signed sign self.old }
    {
        match sign {
            Sign::Nothing => {}
            Sign::BurstStarts => {
                self.detector.rise();
                if self.phase == Phase::Awaiting && self.detector.has_detected() {
                    self.enter(Phase::SendingComsas);
                }
            }
            Sign::BurstEnds => self.detector.cease(),
            Sign::Locked => self.lock(),
            Sign::Align1 => self.align(),
        }
    }

    fn lock(&mut self)
        ensures { self.new ≡ signed Sign.Locked self.old }
    {
        if self.phase != Phase::Negotiating {
            return;
        }
        if let Some(window) = &mut self.window
            && self.rates.supports(window.rate)
            && self.elapsed >= WINDOW_IDLE
            && self.elapsed <= LATEST_LOCK
        {
            window.locked = true;
        }
    }

    fn align(&mut self)
        ensures { self.new ≡ signed Sign.Align1 self.old }
    {
        if self.phase != Phase::Negotiating {
            return;
        }
        if let Some(window) = &mut self.window
            && window.locked
        {
            window.aligned = true;
        }
    }

    // So many ticks, from one transition to the next.
    fn advance(&mut self, count: u32)
        ensures { self.new ≡ ticks count self.old }
    {
        let mut left = count;
        while left > 0 {
            let calm = self.calm(left);
            self.skip(calm);
            left -= calm;
            if left > 0 {
                self.tick();
                left -= 1;
            }
        }
    }

    // For how many ticks, at most so many, nothing comes due.
    fn calm(&self, most: u32) -> u32
        ensures longest { result ≡ min most (min (detector_calm self.now.detector) (phase_calm self.now.phase self.now)) }
        ensures bounded { result ≤ most }
        ensures detector { OnlyRests result self.now.detector }
        ensures phase { NothingDue result self.now }
    {
        most.min(self.detector.calm()).min(self.calm_in_phase())
    }

    fn calm_in_phase(&self) -> u32
        ensures longest { result ≡ phase_calm self.now.phase self.now }
        ensures calm { NothingDue result self.now }
    {
        match self.phase {
            Phase::Awaiting if self.detector.has_detected() => 0,
            Phase::Falling if self.detector.fallen => 0,
            _ => self.timer().map_or(MOST_TICKS, |ticks| (ticks - 1).saturating_sub(self.elapsed)),
        }
    }

    fn skip(&mut self, count: u32)
        ensures { self.new ≡ skipped count self.old }
    {
        self.elapsed = count_up(WINDOW_TICKS, self.elapsed, count);
        self.detector.rest(count);
    }
}
