// Traces of an end.
use crate::replaying::{Replayed, count_differing};
use anyhow::Context;
use bringup::end::End;
use code::refusal::answer_number;
use std::alloc::Global;
use std::fmt;
use std::str::FromStr;

// Kept: EndStep of the drivers has these cases too, but it is another crate's and can be neither parsed nor printed here.
#[derive(Clone, Copy)]
enum EndCall {
    Start(u8),
    Note(u32, u8),
}

impl FromStr for EndCall {
    type Err = anyhow::Error;

    fn from_str(line: &str) -> anyhow::Result<EndCall> {
        let mut fields = line.split('\t');
        let call = fields.next().context("no call")?;
        let first = fields.next().context("no argument")?;
        match call {
            "start" => Ok(EndCall::Start(first.parse::<u8>()?)),
            _ => {
                let sign = fields.next().context("no sign")?;
                Ok(EndCall::Note(first.parse::<u32>()?, sign.parse::<u8>()?))
            }
        }
    }
}

impl fmt::Display for EndCall {
    fn fmt<W: fmt::Write>(&self, f: &mut fmt::Formatter<W>) -> fmt::Result {
        match self {
            EndCall::Start(rates) => write!(f, "start\t{rates}"),
            EndCall::Note(ticks, sign) => write!(f, "note\t{ticks}\t{sign}"),
        }
    }
}

// Makes a call; the answer is the number of its refusal, 0 for none.
fn make_call(end: &mut End, call: EndCall) -> u8 {
    match call {
        EndCall::Start(rates) => answer_number(&end.start(rates)),
        EndCall::Note(ticks, sign) => answer_number(&end.note(ticks, sign)),
    }
}

impl Replayed for End {
    fn answer_line(&mut self, heap: Global, line: &str) -> anyhow::Result<String> {
        let call = line.parse::<EndCall>()?;
        let number = make_call(self, call);
        Ok(format!(in heap;
            "{call}\t{number}\t{}\t{}\t{}",
            self.sends(),
            self.rate(),
            self.outcome()
        )?)
    }
}

pub fn replay_end(rt: &HostRuntime, trace: &[&str]) -> anyhow::Result<()> {
    let differing = count_differing(rt, &mut End::new(), trace)?;
    println!(rt; "end, {} lines: {differing} differing", trace.len())?;
    Ok(())
}
