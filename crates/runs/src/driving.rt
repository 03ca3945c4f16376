// Calls made one after another, with every answer written to its place.
ghost use Rattle.std.specs.Prelude.{◌≡◌, ◌≤◌, length, take, drop};
ghost use Rattle.runs.specs.Driving.{Steps};

// What calls are made on. `step` says what a call answers, and what it leaves.
pub(crate) trait Driven {
    type Call: Copy;

    type Answer: Copy;

    ghost step: { Self → Self.Call → Self.Answer → Self → Type 0 };

    fn call(&mut self, call: Self::Call) -> Self::Answer
        ensures { step self.old call result self.new };
}

// Makes the calls, and writes each answer to its place.
pub(crate) fn drive<D: Driven>(driven: &mut D, calls: &[D::Call], answers: &mut [D::Answer])
    requires { length calls.now ≤ length answers.old }
    ensures steps { Steps D.step driven.old calls.now (take (length calls.now) answers.new) driven.new }
    ensures rest { drop (length calls.now) answers.new ≡ drop (length calls.now) answers.old }
{
    // Kept: tried over answers.iter_mut().zip(calls), and the proof did not close: it knows no answer after that loop.
    for (i, call) in calls.iter().enumerate() {
        answers[i] = driven.call(*call);
    }
}
