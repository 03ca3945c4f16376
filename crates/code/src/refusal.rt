// Refusals go by numbers.
ghost use Rattle.std.specs.Prelude.{◌≡◌, ℕ};
ghost use Rattle.code.specs.Refusals.{number_or_zero};

// Why a call is declined. Each kind of refusal says which number each of its cases goes by.
pub trait Refusal {
    ghost number_of: { Self → ℕ };

    // The number that the refusal goes by.
    fn number(&self) -> u8
        ensures { result ≡ number_of self.now };
}

// The number that an answer is refused by, or 0 where it is not refused.
pub fn answer_number<A, E: Refusal>(answer: &Result<A, E>) -> u8
    ensures { result ≡ number_or_zero E.number_of answer.now }
{
    match answer {
        Ok(_) => 0,
        Err(refusal) => refusal.number(),
    }
}
