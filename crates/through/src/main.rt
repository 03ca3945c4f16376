// Sends characters through a line and takes their bits again, so many rounds: 'through packed 1000' or 'through word 1000'.
// It prints how many bits went through and how many of them were ones; `bench/run` times it.
#![tactic(auto)]

use anyhow::Context;
use line::tap::{Line, Tap};
use lines::packed_line::PackedLine;
use lines::word_line::WordLine;
use std::env;

// What went through.
#[derive(Clone, Copy, Default)]
struct Count {
    bits: u64,
    ones: u64,
}

// Each round puts a character, turns one of its bits, and takes ten bits.
fn go_round<L: Line>(line: &mut L, rounds: u64) -> Count {
    let mut count = Count::default();
    for round in 0..rounds {
        let _ = line.put((round % 1024) as u16);
        let _ = line.turn((round % 10) as usize);
        for _ in 0..10 {
            if let Some(bit) = line.take() {
                count.bits = count.bits.wrapping_add(1);
                count.ones = count.ones.wrapping_add(bit as u64);
            }
        }
    }
    count
}

fn run(rt: &HostRuntime) -> anyhow::Result<()> {
    let mut arguments = env::args(rt)?.skip(1);
    let kind = arguments.next().context("packed or word?")?;
    let rounds = arguments
        .next()
        .context("how many rounds?")?
        .parse::<u64>()?;
    let count = if kind.as_str() == "packed" {
        go_round(&mut PackedLine::over(&mut [0; 125]), rounds)
    } else {
        go_round(&mut WordLine::over(&mut [0; 100]), rounds)
    };
    println!(rt; "{} bits, {} ones", count.bits, count.ones)?;
    Ok(())
}

fn main(rt: HostRuntime) -> anyhow::Result<()> {
    run(&rt)
}
