// Brings an end up so many times: 'bringups 1000'. The other end's signals, locks and ALIGN(1) are noted as a drive of
// all rates would give them. It prints how many came up and the sum of their rates; `bench/run` times it.
#![tactic(auto)]

use anyhow::Context;
use bringup::end::{End, Outcome};
use bringup::signal::{BURST_TICKS, Signal};
use std::env;

// What came of the bring-ups.
#[derive(Clone, Copy, Default)]
struct Count {
    ready: u64,
    rates: u64,
}

impl Count {
    // With what came of one more.
    fn with(self, end: &End) -> Count {
        if end.outcome() != Outcome::Ready {
            return self;
        }
        Count {
            ready: self.ready.wrapping_add(1),
            rates: self.rates.wrapping_add(u64::from(end.rate())),
        }
    }
}

// A signal of six idles and bursts arrives, and then its closing idle.
fn note_signal(end: &mut End, signal: Signal) {
    for _ in 0..6 {
        let _ = end.note(signal.idle(), 1);
        let _ = end.note(BURST_TICKS, 2);
    }
    let _ = end.note(signal.closing_idle(), 0);
}

const WINDOW_TICKS: u32 = 960 + 327_680;

// A whole window, in which the end locks early and then hears ALIGN(1).
fn note_window(end: &mut End, lock: u32) {
    let _ = end.note(lock, 3);
    let _ = end.note(200, 4);
    let _ = end.note((WINDOW_TICKS - 200).saturating_sub(lock), 0);
}

// One whole bring-up. The window above the highest rate, of which no end of three rates can say anything, is noted like
// the others.
fn bring_up(lock: u32) -> End {
    let mut end = End::new();
    let _ = end.start(7);
    note_signal(&mut end, Signal::Cominit);
    note_signal(&mut end, Signal::Comsas);
    for _ in 0..5 {
        note_window(&mut end, lock);
    }
    end
}

fn run(rt: &HostRuntime) -> anyhow::Result<()> {
    let rounds = env::args(rt)?
        .nth(1)
        .context("how many bring-ups?")?
        .parse::<u64>()?;
    let count = (0..rounds)
        .map(|round| bring_up((round % 1_000) as u32 + 1_000))
        .fold(Count::default(), |count, end| count.with(&end));
    println!(rt; "{} ready, sum of rates {}", count.ready, count.rates)?;
    Ok(())
}

fn main(rt: HostRuntime) -> anyhow::Result<()> {
    run(&rt)
}
