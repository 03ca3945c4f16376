// Two ends on a fair line.
#![tactic(auto)]

ghost use Rattle.agreement.specs.FairLine.{FairLinesAgree};

// Whenever each end starts and whatever else is called, two ends on a fair line agree.
fn fair_lines_agree()
    ensures { FairLinesAgree }
{}
