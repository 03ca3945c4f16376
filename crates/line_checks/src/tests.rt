// Each test of a line is written once, and run on both kinds.
use code::refusal::{Refusal, answer_number};
use line::refusal::MemoryRefusal;
use line::tap::{Line, Tap};
use lines::packed_line::PackedLine;
use lines::word_line::WordLine;
use std::process::Abort;

// The number that the next bits make; none where the line runs dry.
fn take_number<L: Line>(line: &mut L, bits: usize) -> Option<u16> {
    let mut number = 0u16;
    for _ in 0..bits {
        number = (number << 1) | line.take()? as u16;
    }
    Some(number)
}

// Fills a line of 40 bits, where the next character is refused.
fn fill<L: Line>(rt: &impl Abort, line: &mut L) {
    assert_eq!(rt; answer_number(&line.turn(0)), 4);
    assert_eq!(rt;
        [answer_number(&line.put(1)), answer_number(&line.put(1023))],
        [0, 0]
    );
    assert_eq!(rt;
        [answer_number(&line.put(512)), answer_number(&line.put(682))],
        [0, 0]
    );
    assert_eq!(rt;
        [answer_number(&line.put(0)), answer_number(&line.put(1024))],
        [2, 1]
    );
    assert_eq!(rt; line.count(), 40);
}

// Turns the last bit of the second character and of the fifth, and empties the line.
fn empty<L: Line>(rt: &impl Abort, line: &mut L) {
    assert_eq!(rt; take_number(line, 11), Some(3));
    assert_eq!(rt;
        [answer_number(&line.put(5)), answer_number(&line.put(5))],
        [0, 2]
    );
    assert_eq!(rt;
        [
            answer_number(&line.turn(39)),
            answer_number(&line.turn(38)),
            answer_number(&line.turn(8)),
        ],
        [4, 0, 0]
    );
    assert_eq!(rt;
        [take_number(line, 9), take_number(line, 10)],
        [Some(510), Some(512)]
    );
    assert_eq!(rt;
        [take_number(line, 10), take_number(line, 10)],
        [Some(682), Some(4)]
    );
    assert_eq!(rt; line.take(), None);
}

// Five characters a round: the second round begins at the second character of the memory, and so on.
fn run_rounds<L: Line>(rt: &impl Abort, line: &mut L) {
    assert_eq!(rt; line.capacity(), 40);
    for _ in 0..4 {
        fill(rt, line);
        empty(rt, line);
    }
}

// A line over memory out of range holds nothing.
fn refuse_all<L: Line>(rt: &impl Abort, line: &mut L) {
    assert_eq!(rt; line.capacity(), 0);
    assert_eq!(rt;
        [
            answer_number(&line.put(0)),
            answer_number(&line.put(1024)),
            answer_number(&line.turn(0)),
        ],
        [2, 1, 4]
    );
    assert_eq!(rt; line.take(), None);
}

#[test]
fn packed_line_goes_round(rt: HostRuntime) {
    run_rounds(&rt, &mut PackedLine::over(&mut [0xA5; 5]));
}

#[test]
fn word_line_goes_round(rt: HostRuntime) {
    run_rounds(&rt, &mut WordLine::over(&mut [0xFFFF; 4]));
}

#[test]
fn lines_out_of_range_refuse(rt: HostRuntime) {
    refuse_all(&rt, &mut PackedLine::over(&mut [0; 4]));
    refuse_all(&rt, &mut PackedLine::over(&mut []));
    refuse_all(&rt, &mut WordLine::over(&mut [0; 3]));
    refuse_all(&rt, &mut WordLine::over(&mut []));
}

#[test]
fn memory_checked_at_the_edges(rt: HostRuntime) {
    let refused = Err(MemoryRefusal::OutOfRange);
    assert_eq!(rt; MemoryRefusal::OutOfRange.number(), 3);
    assert_eq!(rt;
        [PackedLine::check(&[0; 4]), PackedLine::check(&[0; 5])],
        [refused, Ok(40)]
    );
    assert_eq!(rt;
        [
            PackedLine::check(&[0; 8192]),
            PackedLine::check(&[0; 8193]),
        ],
        [Ok(65_530), refused]
    );
    assert_eq!(rt;
        [WordLine::check(&[0; 3]), WordLine::check(&[0; 4])],
        [refused, Ok(40)]
    );
    assert_eq!(rt;
        [WordLine::check(&[0; 6553]), WordLine::check(&[0; 6554])],
        [Ok(65_530), refused]
    );
}
