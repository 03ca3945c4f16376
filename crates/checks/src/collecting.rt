// Queues, and collecting into two of them.
use code::refusal::answer_number;
use line::recording::Recording;
use line::tap::Tap;
use link::receiver::Receiver;
use reports::collecting::{Stop, collect};
use reports::queue::Queue;
use reports::record::DwordRecord;
use reports::report::Report;
use std::test::Fail;

// Six ALIGN(0) sent from minus, in two records.
const SIX_ALIGNS: [u8; 32] = [
    120, 0x3E, 0x95, 0x55, 0x54, 0x9C, 0x3E, 0x95, 0x55, 0x54, 0x9C, 0x3E, 0x95, 0x55, 0x54, 0x9C,
    120, 0x3E, 0x95, 0x55, 0x54, 0x9C, 0x3E, 0x95, 0x55, 0x54, 0x9C, 0x3E, 0x95, 0x55, 0x54, 0x9C,
];

#[test]
fn queue_goes_round(rt: HostRuntime) {
    let mut memory = [9u8; 2];
    let mut queue = Queue::over(&mut memory);
    assert_eq!(rt; queue.pop(), None);
    for n in 0..5u8 {
        assert_eq!(rt; queue.room(), 2);
        assert!(rt; queue.push(n).is_ok());
        assert!(rt; queue.push(n + 100).is_ok());
        assert_eq!(rt; answer_number(&queue.push(77)), 21);
        assert_eq!(rt; queue.pop(), Some(n));
        assert_eq!(rt; queue.pop(), Some(n + 100));
    }
    assert_eq!(rt; queue.pop(), None);
}

#[test]
fn collecting_stops_for_the_first_reason(rt: HostRuntime) -> Result<(), Fail> {
    let mut tap = Recording::open(&SIX_ALIGNS)?;
    let mut receiver = Receiver::new();
    let mut dword_memory = [DwordRecord::default(); 2];
    let mut report_memory = [Report::Lost; 4];
    let mut dwords = Queue::over(&mut dword_memory);
    let mut reports = Queue::over(&mut report_memory);
    let none = collect(&mut receiver, &mut tap, 0, &mut dwords, &mut reports);
    assert_eq!(rt; none.bits, 0);
    assert_eq!(rt; none.stop, Stop::Spent);
    let some = collect(&mut receiver, &mut tap, 130, &mut dwords, &mut reports);
    assert_eq!(rt; some.bits, 130);
    assert_eq!(rt; some.stop, Stop::Spent);
    assert_eq!(rt; reports.room(), 3);
    let full = collect(&mut receiver, &mut tap, 1000, &mut dwords, &mut reports);
    assert_eq!(rt; full.bits, 70);
    assert_eq!(rt; full.stop, Stop::DwordsFull);
    assert_eq!(rt; reports.room(), 2);
    assert_eq!(rt; dwords.room(), 0);
    assert_eq!(rt; tap.count(), 40);
    Ok(())
}
