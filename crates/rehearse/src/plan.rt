// What is planned for an end.
use anyhow::Context;
use std::str::FromStr;

// When an end starts, with which rates, and when it locks in a window.
#[derive(Clone, Copy)]
pub struct Plan {
    pub start: u64,
    pub rates: u8,
    pub lock: Option<u64>,
}

impl FromStr for Plan {
    type Err = anyhow::Error;

    fn from_str(line: &str) -> anyhow::Result<Plan> {
        let mut words = line.split(' ').skip(1);
        let start = words.next().context("no start")?.parse::<u64>()?;
        let rates = words.next().context("no rate set")?.parse::<u8>()?;
        let lock = match words.next().context("no lock")? {
            "never" => None,
            ticks => Some(ticks.parse::<u64>()?),
        };
        Ok(Plan { start, rates, lock })
    }
}
