// Collecting: many hearings into two queues.
ghost use Rattle.std.specs.Prelude.{◌≡◌, ◌+◌, length, if◌then◌else◌, nat_eq};
ghost use Rattle.std.specs.Option.{option_to_list};
ghost use Rattle.reports.specs.Queues.{Filled, room_of};
ghost use Rattle.reports.specs.Collecting.{dwords_of, bad_reports, reports_of, Collects, collected};

use crate::queue::Queue;
use crate::record::DwordRecord;
use crate::report::Report;
use line::tap::Tap;
use link::heard::{BadDword, Heard};
use link::receiver::Receiver;
use link::receiver::hearing::HearRefusal;

// Why collecting stopped: no bit waits, the number of bits is spent, the dword queue is full, fewer than three places
// are left for reports, or a hearing was declined.
#[derive(Clone, Copy, PartialEq, Eq, Debug)]
pub enum Stop {
    Dry,
    Spent,
    DwordsFull,
    ReportsFull,
    Declined(HearRefusal),
}

// How many bits were taken, and why no more.
#[derive(Clone, Copy, PartialEq, Eq, Debug)]
pub struct Collected {
    pub bits: usize,
    pub stop: Stop,
}

// Pushes an element, if there is one and room for it.
fn keep<T: Copy>(queue: &mut Queue<'_, T>, element: Option<T>)
    ensures { Filled queue.old (option_to_list element) queue.new }
{
    if let Some(element) = element {
        let _ = queue.push(element);
    }
}

// The reports of an answer.
fn keep_reports(reports: &mut Queue<'_, Report>, heard: Heard)
    ensures { Filled reports.old (reports_of heard) reports.new }
{
    match heard {
        Heard::Dry | Heard::More => {}
        Heard::Slip => keep(reports, Some(Report::Slip)),
        Heard::Gained => keep(reports, Some(Report::Gained)),
        Heard::Good(good) => keep(reports, good.settlement.map(Report::from)),
        Heard::Bad(bad) => keep_bad(reports, bad),
    }
}

fn keep_bad(reports: &mut Queue<'_, Report>, bad: BadDword)
    ensures { Filled reports.old (bad_reports bad) reports.new }
{
    keep(reports, bad.settlement.map(Report::from));
    keep(reports, Some(Report::Bad(bad.into())));
    keep(reports, bad.lost.then_some(Report::Lost));
}

// The dword of an answer.
fn keep_dword(dwords: &mut Queue<'_, DwordRecord>, heard: Heard)
    ensures { Filled dwords.old (dwords_of heard) dwords.new }
{
    if let Heard::Good(good) = heard {
        keep(dwords, Some(good.into()));
    }
}

// The end of collecting: a dry tap comes before every other reason.
fn stop_at<T: Tap>(tap: &T, bits: usize, stop: Stop) -> Collected
    ensures bits { result.bits ≡ bits }
    ensures stop { result.stop ≡ (if nat_eq (length (T.meaning tap.now).waiting) 0 then Stop.Dry else stop) }
{
    let stop = if tap.is_dry() { Stop::Dry } else { stop };
    Collected { bits, stop }
}

// Hears at most so many bits into the two queues.
// Kept: no other function takes both queues, so a struct of them would be made only to be taken apart.
pub fn collect<T: Tap>(
    receiver: &mut Receiver,
    tap: &mut T,
    most: usize,
    dwords: &mut Queue<'_, DwordRecord>,
    reports: &mut Queue<'_, Report>,
) -> Collected
    ensures collects { Collects (collected most (room_of dwords.old) (room_of reports.old) receiver.old.state (T.meaning tap.old).waiting) result.bits result.stop receiver.new.state (T.meaning tap.new).waiting dwords.old dwords.new reports.old reports.new }
    ensures gone { result.bits + length (T.meaning tap.new).waiting ≡ length (T.meaning tap.old).waiting }
    ensures capacity { (T.meaning tap.new).capacity ≡ (T.meaning tap.old).capacity }
{
    const LEAST_PLACES: usize = 3;
    for bits in 0..most {
        if dwords.room() == 0 {
            return stop_at(tap, bits, Stop::DwordsFull);
        }
        if reports.room() < LEAST_PLACES {
            return stop_at(tap, bits, Stop::ReportsFull);
        }
        match receiver.hear(tap) {
            Ok(heard) => {
                if heard == Heard::Dry {
                    return stop_at(tap, bits, Stop::Dry);
                }
                keep_dword(dwords, heard);
                keep_reports(reports, heard);
            }
            Err(refusal) => return stop_at(tap, bits, Stop::Declined(refusal)),
        }
    }
    stop_at(tap, most, Stop::Spent)
}
