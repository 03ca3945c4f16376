// Holds the code against a table from standard input: a heading, then on each line a code's name, its kind, its byte in
// hexadecimal, and its characters at minus and at plus in binary, with a tab between. Every code of the table is encoded,
// and every number of ten bits decoded, in both columns. What differs is printed, and at the end a summary.
#![tactic(auto)]

use anyhow::Context;
use code::refusal::answer_number;
use code::{Code, DecodeRefusal, Decoded, Encoded, Kind, decode, encode, examples_hold};
use std::str::FromStr;
use std::{fmt, io};

// A code with its characters at minus and at plus.
// Kept: the kind is a number, which the table may give above 1, and `encode` refuses such by number.
#[derive(Clone, Copy)]
struct Row {
    kind: u8,
    byte: u8,
    minus: u16,
    plus: u16,
}

// What a column of the table holds against decoding all numbers of ten bits.
#[derive(Clone, Copy, Default)]
struct Column {
    read: u16,
    refused: u16,
    differing: u16,
}

impl FromStr for Row {
    type Err = anyhow::Error;

    fn from_str(line: &str) -> anyhow::Result<Row> {
        let mut fields = line.split('\t').skip(1);
        let kind = fields.next().context("no kind")?.parse::<u8>()?;
        let byte = u8::from_str_radix(fields.next().context("no byte")?, 16)?;
        let minus = u16::from_str_radix(fields.next().context("no character")?, 2)?;
        let plus = u16::from_str_radix(fields.next().context("no second character")?, 2)?;
        Ok(Row {
            kind,
            byte,
            minus,
            plus,
        })
    }
}

impl fmt::Display for Column {
    fn fmt<W: fmt::Write>(&self, f: &mut fmt::Formatter<W>) -> fmt::Result {
        let Column {
            read,
            refused,
            differing,
        } = *self;
        write!(f, "{read} read, {refused} refused, {differing} differing")
    }
}

impl Row {
    // The code, if the kind is one.
    fn code(&self) -> Option<Code> {
        let kind = Kind::try_from(self.kind).ok()?;
        let byte = self.byte;
        Some(Code { kind, byte })
    }

    fn character(&self, disparity: u8) -> u16 {
        if disparity == 0 {
            self.minus
        } else {
            self.plus
        }
    }

    // Whether the code is encoded as its character, with the disparity after it that its ones give.
    fn is_encoded(&self, disparity: u8) -> bool {
        let character = self.character(disparity);
        let encoded = Encoded {
            character,
            disparity: after_character(character, disparity),
        };
        encode(self.kind, self.byte, disparity) == Ok(encoded)
    }
}

// The disparity after a half of so many bits, from a count of its ones.
fn after_half(half: u16, width: u32, disparity: u8) -> u8 {
    let twice = half.count_ones().saturating_mul(2);
    let ones_last = if width == 6 { 0b000111 } else { 0b0011 };
    let ones_first = if width == 6 { 0b111000 } else { 0b1100 };
    if twice > width || half == ones_last {
        1
    } else if twice < width || half == ones_first {
        0
    } else {
        disparity
    }
}

fn after_character(character: u16, disparity: u8) -> u8 {
    after_half(character % 16, 4, after_half(character / 16, 6, disparity))
}

// The code that has the character in the column.
fn find_row(rows: &[Row], character: u16, disparity: u8) -> Option<&Row> {
    if disparity == 0 {
        rows.iter().find(|row| row.minus == character)
    } else {
        rows.iter().find(|row| row.plus == character)
    }
}

// Whether the number is decoded as the table says: read as its code, or refused where it has none.
fn decodes(row: Option<&Row>, character: u16, disparity: u8) -> bool {
    let disparity_after = after_character(character, disparity);
    let expected = match row {
        Some(row) => row.code().map(|code| {
            Ok(Decoded {
                code,
                disparity: disparity_after,
            })
        }),
        None => Some(Err(DecodeRefusal::NotInColumn(disparity_after))),
    };
    expected == Some(decode(character, disparity))
}

fn survey(rows: &[Row], disparity: u8) -> Column {
    let mut column = Column::default();
    for character in 0u16..1024 {
        let row = find_row(rows, character, disparity);
        let count = if !decodes(row, character, disparity) {
            &mut column.differing
        } else if row.is_some() {
            &mut column.read
        } else {
            &mut column.refused
        };
        *count = count.saturating_add(1);
    }
    column
}

// The refusals at their edges, 0 for none, and which of two comes first.
fn print_refusals(rt: &HostRuntime) -> io::Result<()> {
    println!(rt;
        "encode: {} {} {} {} {}",
        answer_number(&encode(1, 0xBC, 1)),
        answer_number(&encode(2, 0xBC, 2)),
        answer_number(&encode(1, 0x7C, 0)),
        answer_number(&encode(1, 0x7D, 2)),
        answer_number(&encode(0, 0x7D, 2))
    )?;
    println!(rt;
        "decode: {} {} {} {} {}",
        answer_number(&decode(628, 0)),
        answer_number(&decode(1024, 2)),
        answer_number(&decode(1023, 0)),
        answer_number(&decode(628, 2)),
        answer_number(&decode(628, 1))
    )
}

fn run(rt: &HostRuntime) -> anyhow::Result<()> {
    let text = io::read_to_string(rt.alloc(), rt.stdin())?;
    let mut rows = Vec::new(rt.alloc());
    for line in text.lines().skip(1) {
        let Ok(row) = line.parse::<Row>() else {
            println!(rt; "not a row: {line}")?;
            continue;
        };
        if !row.is_encoded(0) || !row.is_encoded(1) {
            println!(rt; "encoded otherwise: {line}")?;
        }
        rows.push(row)?;
    }
    println!(rt; "{} codes", rows.len())?;
    println!(rt; "minus: {}", survey(&rows, 0))?;
    println!(rt; "plus: {}", survey(&rows, 1))?;
    print_refusals(rt)?;
    println!(rt; "examples hold: {}", examples_hold())?;
    Ok(())
}

fn main(rt: HostRuntime) -> anyhow::Result<()> {
    run(&rt)
}
