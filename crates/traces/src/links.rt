// Traces of a link.
use crate::replaying::{Replayed, count_differing};
use anyhow::Context;
use code::encode;
use code::refusal::{Refusal, answer_number};
use line::refusal::PutRefusal;
use line::tap::{Line, Tap};
use lines::packed_line::PackedLine;
use lines::word_line::WordLine;
use link::heard::{Heard, Settlement};
use link::receiver::Receiver;
use reports::record::DwordRecord;
use reports::report::{BadReport, Report};
use std::alloc::Global;
use std::fmt;

// A call, its arguments as the trace writes them.
#[derive(Clone, Copy)]
enum LinkCall<'a> {
    Send { kind: &'a str, bytes: &'a str },
    Turn { place: &'a str },
    Take,
    Hear,
}

// The number of a refusal, 0 for none; a bit, if one was waiting; or what was heard.
#[derive(Clone, Copy)]
enum LinkAnswer {
    Number(u8),
    Taken(Option<u8>),
    Heard(Heard),
}

// A line, its receiver, and the disparity of its sender.
#[derive(Drop)]
struct Link<'a, L: Line> {
    line: &'a mut L,
    receiver: Receiver,
    disparity: u8,
}

fn four_bytes(text: &str) -> anyhow::Result<[u8; 4]> {
    let mut bytes = [0u8; 4];
    for (byte, word) in bytes.iter_mut().zip(text.split(' ')) {
        *byte = u8::from_str_radix(word, 16)?;
    }
    Ok(bytes)
}

impl<'a> TryFrom<&'a str> for LinkCall<'a> {
    type Error = anyhow::Error;

    fn try_from(line: &'a str) -> anyhow::Result<LinkCall<'a>> {
        let mut fields = line.split('\t');
        match fields.next().context("no call")? {
            "hear" => Ok(LinkCall::Hear),
            "take" => Ok(LinkCall::Take),
            "turn" => {
                let place = fields.next().context("no argument")?;
                Ok(LinkCall::Turn { place })
            }
            _ => {
                let kind = fields.next().context("no argument")?;
                let bytes = fields.next().context("no bytes")?;
                Ok(LinkCall::Send { kind, bytes })
            }
        }
    }
}

impl fmt::Display for LinkCall<'_> {
    fn fmt<W: fmt::Write>(&self, f: &mut fmt::Formatter<W>) -> fmt::Result {
        match self {
            LinkCall::Send { kind, bytes } => write!(f, "send\t{kind}\t{bytes}"),
            LinkCall::Turn { place } => write!(f, "turn\t{place}"),
            LinkCall::Take => write!(f, "take"),
            LinkCall::Hear => write!(f, "hear"),
        }
    }
}

fn write_settled<W: fmt::Write>(
    f: &mut fmt::Formatter<W>,
    settlement: Option<Settlement>,
) -> fmt::Result {
    match settlement {
        Some(settlement) => write!(f, "{}\t", Report::from(settlement)),
        None => Ok(()),
    }
}

fn write_heard<W: fmt::Write>(f: &mut fmt::Formatter<W>, heard: Heard) -> fmt::Result {
    match heard {
        Heard::Dry => write!(f, "dry"),
        Heard::More => write!(f, "more"),
        Heard::Slip => write!(f, "{}", Report::Slip),
        Heard::Gained => write!(f, "{}", Report::Gained),
        Heard::Good(good) => {
            write_settled(f, good.settlement)?;
            write!(f, "{}", DwordRecord::from(good))
        }
        Heard::Bad(bad) => {
            write_settled(f, bad.settlement)?;
            write!(f, "{}", Report::Bad(BadReport::from(bad)))?;
            if bad.lost {
                write!(f, "\t{}", Report::Lost)?;
            }
            Ok(())
        }
    }
}

impl fmt::Display for LinkAnswer {
    fn fmt<W: fmt::Write>(&self, f: &mut fmt::Formatter<W>) -> fmt::Result {
        match *self {
            LinkAnswer::Number(number) => write!(f, "{number}"),
            LinkAnswer::Taken(Some(bit)) => write!(f, "{bit}"),
            LinkAnswer::Taken(None) => write!(f, "dry"),
            LinkAnswer::Heard(heard) => write_heard(f, heard),
        }
    }
}

impl<L: Line> Link<'_, L> {
    fn has_room(&self) -> bool {
        self.line.count().saturating_add(40) <= self.line.capacity()
    }

    // Sends a dword as a sender of this disparity does, character by character, if there is room for all four.
    fn send(&mut self, kind: u8, bytes: [u8; 4]) -> u8 {
        if let Err(refusal) = encode(kind, bytes[0], self.disparity) {
            return refusal.number();
        }
        if !self.has_room() {
            return PutRefusal::NoRoom.number();
        }
        for (kind, byte) in [kind, 0, 0, 0].iter().zip(bytes.iter()) {
            if let Ok(encoded) = encode(*kind, *byte, self.disparity) {
                let _ = self.line.put(encoded.character);
                self.disparity = encoded.disparity;
            }
        }
        0
    }

    fn make_call(&mut self, call: LinkCall<'_>) -> anyhow::Result<LinkAnswer> {
        match call {
            LinkCall::Send { kind, bytes } => {
                let number = self.send(kind.parse::<u8>()?, four_bytes(bytes)?);
                Ok(LinkAnswer::Number(number))
            }
            LinkCall::Turn { place } => {
                let turned = self.line.turn(place.parse::<usize>()?);
                Ok(LinkAnswer::Number(answer_number(&turned)))
            }
            LinkCall::Take => Ok(LinkAnswer::Taken(self.line.take())),
            LinkCall::Hear => match self.receiver.hear(self.line) {
                Ok(heard) => Ok(LinkAnswer::Heard(heard)),
                Err(refusal) => Ok(LinkAnswer::Number(refusal.number())),
            },
        }
    }
}

impl<L: Line> Replayed for Link<'_, L> {
    fn answer_line(&mut self, heap: Global, line: &str) -> anyhow::Result<String> {
        let call = LinkCall::try_from(line)?;
        let answer = self.make_call(call)?;
        Ok(format!(in heap; "{call}\t{answer}")?)
    }
}

fn replay_on<L: Line>(
    rt: &HostRuntime,
    name: &str,
    line: &mut L,
    opened: u8,
    trace: &[&str],
) -> anyhow::Result<()> {
    let capacity = line.capacity();
    let mut link = Link {
        line,
        receiver: Receiver::new(),
        disparity: opened,
    };
    let differing = count_differing(rt, &mut link, trace)?;
    println!(rt;
        "{name} of {capacity}, {} lines: {differing} differing",
        trace.len()
    )?;
    Ok(())
}

// The number in a word, which a comma may follow.
fn number_in(word: Option<&str>) -> anyhow::Result<usize> {
    let word = word.context("no number")?;
    Ok(word.trim_end_matches(',').parse::<usize>()?)
}

pub fn replay_link(rt: &HostRuntime, header: &str, trace: &[&str]) -> anyhow::Result<()> {
    let capacity = number_in(header.split(' ').nth(2))?;
    let opened = if header.ends_with('1') { 1 } else { 0 };
    let mut bytes = vec![in rt.alloc(); 0u8; capacity / 8]?;
    let mut words = vec![in rt.alloc(); 0u16; capacity / 10]?;
    let mut packed = PackedLine::over(&mut bytes);
    replay_on(rt, "packed line", &mut packed, opened, trace)?;
    let mut word = WordLine::over(&mut words);
    replay_on(rt, "word line", &mut word, opened, trace)
}
