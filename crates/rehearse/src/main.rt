// Brings two ends up over a simulated fair line. Standard input has three lines: 'delay P', and for each end its name,
// the tick at which it starts, its rate set, and how many ticks into the second part of a window it locks, or 'never':
//
//     delay 500
//     first 0 7 1000
//     second 30000 3 2000
//
// It prints each window and the outcomes, and then what the same calls come to through the driver that carries the law.
#![tactic(auto)]

mod ending;
mod plan;
mod side;

use anyhow::{Context, anyhow};
use ending::Ending;
use plan::Plan;
use runs::ends::{EndCall, WhichEnd, run_ends};
use side::Side;
use std::io;

// By then both ends are ready or failed.
const ENOUGH_TICKS: u64 = 1_709_885;

// Runs the common clock until both ends are ready or failed, and gives the calls that were made.
fn simulate(rt: &HostRuntime, delay: u64, one: Plan, two: Plan) -> anyhow::Result<Vec<EndCall>> {
    let mut first = Side::new(rt.alloc(), WhichEnd::First, one);
    let mut second = Side::new(rt.alloc(), WhichEnd::Second, two);
    let mut calls = Vec::new(rt.alloc());
    let end = one.start.max(two.start).saturating_add(ENOUGH_TICKS);
    for now in 0..end {
        first.step(rt, &mut calls, second.arriving(now, delay))?;
        second.step(rt, &mut calls, first.arriving(now, delay))?;
        if first.is_over() && second.is_over() {
            break;
        }
    }
    first.close(&mut calls)?;
    second.close(&mut calls)?;
    Ok(calls)
}

fn run(rt: &HostRuntime) -> anyhow::Result<()> {
    let text = io::read_to_string(rt.alloc(), rt.stdin())?;
    let mut lines = text.lines();
    let delay = lines
        .next()
        .and_then(|line| line.split(' ').nth(1))
        .context("no delay")?
        .parse::<u64>()?;
    let one = lines.next().context("no first end")?.parse::<Plan>()?;
    let two = lines.next().context("no second end")?.parse::<Plan>()?;
    if delay == 0 || delay > 7_000 {
        return Err(anyhow!("the delay is from 1 to 7000"));
    }
    let calls = simulate(rt, delay, one, two)?;
    let made = run_ends(rt.alloc(), &calls)?;
    let declined = made.answers.iter().filter(|answer| answer.is_err()).count();
    println!(rt; "{} calls, {declined} declined", calls.len())?;
    println!(rt; "{}", Ending::of(WhichEnd::First, &made.ends.first))?;
    println!(rt; "{}", Ending::of(WhichEnd::Second, &made.ends.second))?;
    Ok(())
}

fn main(rt: HostRuntime) -> anyhow::Result<()> {
    run(&rt)
}
