// Any list of calls on two ends that nobody has used, with every answer written into lent memory.
ghost use Rattle.std.specs.Prelude.{length, IfOk};
ghost use Rattle.runs.specs.EndRuns.{Stand};
ghost use Rattle.runs.specs.LentRuns.{courses, Written, Answered, Declined, EndsAgree};

use crate::ends::{EndAnswer, EndCall, TwoEnds, ends_agree, make_calls};
use crate::refusal::RunRefusal;

// Makes the calls on two ends that nobody has used, and gives the ends. Each answer goes to its place in the memory; if
// there are fewer places than calls, nothing is done. That the two ends agree on a fair line is part of the promise.
pub fn run_ends_lent(calls: &[EndCall], answers: &mut [EndAnswer]) -> Result<TwoEnds, RunRefusal>
    ensures ends { IfOk result (λ ends. Stand (courses calls.now) ends) }
    ensures answers { Answered calls.now result answers.old answers.new }
    ensures declined { Declined (length calls.now) (length answers.old) result }
    ensures agree { EndsAgree calls.now }
{
    ends_agree(calls);
    if answers.len() < calls.len() {
        return Err(RunRefusal::TooFewPlaces);
    }
    Ok(make_calls(calls, answers))
}
