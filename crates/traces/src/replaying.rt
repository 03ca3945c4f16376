// Any trace, line by line.
use std::alloc::Global;

// What a trace is of: it makes the call of a line, and writes the line with its own answer.
pub trait Replayed {
    fn answer_line(&mut self, heap: Global, line: &str) -> anyhow::Result<String>;
}

// Makes the calls of a trace, and counts the lines that differ.
pub fn count_differing<R: Replayed>(
    rt: &HostRuntime,
    replayed: &mut R,
    trace: &[&str],
) -> anyhow::Result<u32> {
    let mut differing = 0u32;
    for line in trace.iter().skip(1) {
        let made = replayed.answer_line(rt.alloc(), *line)?;
        if made.as_str() != *line {
            println!(rt; "{line} but {made}")?;
            differing = differing.saturating_add(1);
        }
    }
    Ok(differing)
}
