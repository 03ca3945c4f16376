// One run of everything: calls on two ends, and on two links.
ghost use Rattle.std.specs.Prelude.{◌≡◌, reverse, length, take, IfOk, OnOk};
ghost use Rattle.line.specs.Writing.{Still};
ghost use Rattle.transcript.specs.Laws.{SendersAgree};
ghost use Rattle.runs.specs.EndRuns.{Stand};
ghost use Rattle.runs.specs.LentRuns.{courses, Written, EndsAgree};
ghost use Rattle.runs.specs.LinkRuns.{LinkRan, SamePlaces};
ghost use Rattle.runs.specs.WholeRuns.{WholeDeclined};

use crate::ends::{EndAnswer, EndCall, TwoEnds, ends_agree, make_calls};
use crate::links::LinkRun;
use crate::refusal::RunRefusal;
use line::tap::{Line, Tap};

// Makes calls on two ends that nobody has used, and on two links, each an empty line with its sender and a new receiver.
// Each answer and each event goes to its place in the memory. If a memory has fewer places than its calls, or bits wait on
// a line, nothing is done. All laws of this library are part of the promise: the two ends agree on a fair line; what each
// receiver hands out is what was sent; what it vouches for is what was sent there, and every turned bit is refused; and
// two senders that were opened alike put equal bits exactly when they were given equal dwords.
pub fn run_all<L: Line, M: Line>(
    calls: &[EndCall],
    answers: &mut [EndAnswer],
    one: &mut LinkRun<'_, L>,
    other: &mut LinkRun<'_, M>,
) -> Result<TwoEnds, RunRefusal>
    ensures agreement { EndsAgree calls.now }
    ensures ends { IfOk result (λ ends. Stand (courses calls.now) ends) }
    ensures answers { OnOk result (Written calls.now answers.old answers.new) }
    ensures link { OnOk result (LinkRan L.Tap.meaning one.old one.new) }
    ensures other_link { OnOk result (LinkRan M.Tap.meaning other.old other.new) }
    ensures senders { OnOk result (other.old.sender.now.disparity ≡ one.old.sender.now.disparity
        → SendersAgree one.old.sender.now.disparity (reverse (take (length one.old.calls.now) one.new.events.now))
        (reverse (take (length other.old.calls.now) other.new.events.now))) }
    ensures declined { WholeDeclined L.Tap.meaning M.Tap.meaning (length calls.now) (length answers.old) one.old other.old result }
    ensures answers_still { Still result answers.old answers.new }
    ensures link_still { Still result one.old one.new }
    ensures other_link_still { Still result other.old other.new }
    ensures link_same { SamePlaces one.old one.new }
    ensures other_link_same { SamePlaces other.old other.new }
{
    ends_agree(calls);
    if answers.len() < calls.len() || !one.has_places() || !other.has_places() {
        return Err(RunRefusal::TooFewPlaces);
    }
    if !one.is_empty() || !other.is_empty() {
        return Err(RunRefusal::BitsWaiting);
    }
    one.make_calls();
    other.make_calls();
    Ok(make_calls(calls, answers))
}
