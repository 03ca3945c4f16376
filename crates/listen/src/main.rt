// Reads a recording from standard input and prints what is heard in it, a line each. A recording that cannot be opened
// gives one line that says why. A failing read or write, and want of memory, end the program with status 1.
#![tactic(auto)]

use anyhow::bail;
use listening::text::{ListenFault, listen};
use std::io::Read;

// One byte more than a recording may have already decides that it is too long.
const MOST_READ: u64 = 65_537;

fn run(rt: &HostRuntime) -> anyhow::Result<()> {
    let mut input = Vec::new(rt.alloc());
    rt.stdin().take(MOST_READ).read_to_end(&mut input)?;
    match listen(&input, rt.alloc()) {
        Ok(text) => print!(rt; "{text}")?,
        Err(ListenFault::NoMemory) => bail!("no memory"),
        Err(fault) => println!(rt; "{fault}")?,
    }
    Ok(())
}

fn main(rt: HostRuntime) -> anyhow::Result<()> {
    run(&rt)
}
