// Replays traces of calls from standard input and compares every answer. A trace of an end begins with a line '# call',
// and each of its lines has a call, its arguments, its refusal (0 for none), and what the end then says of itself. A trace
// of a link begins with '# capacity N, sender opened at D', and is replayed on both kinds of lines.
#![tactic(auto)]

mod ends;
mod links;
mod replaying;

use ends::replay_end;
use links::replay_link;
use std::io;

fn replay(rt: &HostRuntime, trace: &[&str]) -> anyhow::Result<()> {
    let [header, ..] = trace else {
        return Ok(());
    };
    if header.starts_with("# capacity") {
        replay_link(rt, *header, trace)
    } else {
        replay_end(rt, trace)
    }
}

fn run(rt: &HostRuntime) -> anyhow::Result<()> {
    let text = io::read_to_string(rt.alloc(), rt.stdin())?;
    let mut trace = Vec::new(rt.alloc());
    for line in text.lines() {
        if line.starts_with('#') {
            replay(rt, trace.as_slice())?;
            trace.clear();
        }
        trace.push(line)?;
    }
    replay(rt, trace.as_slice())
}

fn main(rt: HostRuntime) -> anyhow::Result<()> {
    run(&rt)
}
