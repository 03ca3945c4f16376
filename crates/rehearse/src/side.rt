// One side of the simulated link, tick by tick.
use crate::plan::Plan;
use bringup::end::{Activity, End, Outcome, Sign};
use runs::ends::{EndCall, EndStep, WhichEnd};
use std::alloc::Global;

// How often a locked end notes an ALIGN(1) that arrives.
const ALIGN_PERIOD: u64 = 100;

// A window begins with so much idle.
const WINDOW_IDLE: u64 = 960;

// No call passes more ticks than that.
const MOST_TICKS: u32 = 400_000;

// What an end sent in a tick, and the rate of its window.
#[derive(Clone, Copy)]
struct Sent {
    activity: Activity,
    rate: u8,
}

const SILENT: Sent = Sent {
    activity: Activity::Idle,
    rate: 0,
};

// What arrives at an end in a tick of the common clock, and what arrived in the tick before.
#[derive(Clone, Copy)]
pub struct Arrival {
    now: u64,
    sent: Sent,
    before: Sent,
}

impl Arrival {
    // The edge of a burst, if one arrives.
    fn edge(&self) -> Sign {
        let was = self.before.activity == Activity::Burst;
        let is = self.sent.activity == Activity::Burst;
        match (was, is) {
            (false, true) => Sign::BurstStarts,
            (true, false) => Sign::BurstEnds,
            _ => Sign::Nothing,
        }
    }

    // Whether an end whose window is at this rate notes an ALIGN(1).
    fn is_align_at(&self, rate: u8) -> bool {
        self.sent.activity == Activity::Align1
            && self.sent.rate == rate
            && self.now % ALIGN_PERIOD == 0
    }
}

// The end, what it sent in each tick of the common clock, when its latest window opened, and how many ticks passed since
// its latest call.
#[derive(Drop)]
pub struct Side {
    end: End,
    which: WhichEnd,
    plan: Plan,
    sent: Vec<Sent>,
    opened: Option<u64>,
    quiet: u32,
}

impl Side {
    pub fn new(heap: Global, which: WhichEnd, plan: Plan) -> Side {
        Side {
            end: End::new(),
            which,
            plan,
            sent: Vec::new(heap),
            opened: None,
            quiet: 0,
        }
    }

    pub fn is_over(&self) -> bool {
        self.end.outcome() != Outcome::Pending
    }

    // What it sent so many ticks before.
    fn sent_before(&self, now: u64, ticks: u64) -> Sent {
        now.checked_sub(ticks)
            .and_then(|tick| usize::try_from(tick).ok())
            .and_then(|index| self.sent.get(index).copied())
            .unwrap_or(SILENT)
    }

    // What arrives from it at the other side.
    pub fn arriving(&self, now: u64, delay: u64) -> Arrival {
        Arrival {
            now,
            sent: self.sent_before(now, delay),
            before: self.sent_before(now, delay.saturating_add(1)),
        }
    }

    // One tick of the common clock.
    pub fn step(
        &mut self,
        rt: &HostRuntime,
        calls: &mut Vec<EndCall>,
        arrival: Arrival,
    ) -> anyhow::Result<()> {
        let rate = self.end.rate();
        if arrival.now == self.plan.start {
            self.start(calls)?;
        } else if arrival.now > self.plan.start {
            self.pass_tick(calls, arrival)?;
        }
        let sent = Sent {
            activity: self.end.sends(),
            rate: self.end.rate(),
        };
        if sent.rate != rate {
            self.opened = Some(arrival.now);
            println!(rt;
                "{}: window at rate {} opens at tick {}",
                self.which, sent.rate, arrival.now
            )?;
        }
        self.sent.push(sent)?;
        Ok(())
    }

    fn start(&mut self, calls: &mut Vec<EndCall>) -> anyhow::Result<()> {
        let rates = self.plan.rates;
        let _ = self.end.start(rates);
        calls.push(EndCall {
            which: self.which,
            step: EndStep::Start(rates),
        })?;
        Ok(())
    }

    // One tick of a started end: burst edges that arrive, its own lock, and ALIGN(1) at its rate.
    fn pass_tick(&mut self, calls: &mut Vec<EndCall>, arrival: Arrival) -> anyhow::Result<()> {
        self.tell(calls, 1, arrival.edge())?;
        if self.lock_tick() == Some(arrival.now) {
            self.tell(calls, 0, Sign::Locked)?;
        }
        if arrival.is_align_at(self.end.rate()) {
            self.tell(calls, 0, Sign::Align1)?;
        }
        Ok(())
    }

    // The tick in which it locks in its latest window.
    fn lock_tick(&self) -> Option<u64> {
        let second_part = self.opened?.saturating_add(WINDOW_IDLE);
        Some(second_part.saturating_add(self.plan.lock?))
    }

    // Notes a sign after so many ticks, 0 or 1, and records the call.
    fn tell(&mut self, calls: &mut Vec<EndCall>, ticks: u32, sign: Sign) -> anyhow::Result<()> {
        let _ = self.end.note(ticks, sign as u8);
        self.quiet = self.quiet.saturating_add(ticks);
        if sign != Sign::Nothing || self.quiet >= MOST_TICKS {
            self.record(calls, sign)?;
        }
        Ok(())
    }

    // Records the ticks since the latest call and the sign after them.
    fn record(&mut self, calls: &mut Vec<EndCall>, sign: Sign) -> anyhow::Result<()> {
        calls.push(EndCall {
            which: self.which,
            step: EndStep::Note(self.quiet, sign as u8),
        })?;
        self.quiet = 0;
        Ok(())
    }

    // Records the ticks that are left.
    pub fn close(&mut self, calls: &mut Vec<EndCall>) -> anyhow::Result<()> {
        self.record(calls, Sign::Nothing)
    }
}
