// What a call that writes into one output answers (document 02, W3: "the number and each length written (0
// when refused) are returned").
#![tactic(auto)]

ghost use Rattle.std.specs.Prelude.{◌≡◌};
ghost use Rattle.std.specs.Result.{result_unwrap_or};
ghost use Rattle.refusal.specs.Refusals.{number_of};

use refusal::Refusal;

// The number, and the bytes that were written, as C has them (include/hirelog.h).
#[repr(C)]
#[derive(Clone, Copy)]
pub struct Written {
    pub number: u32,
    pub length: usize,
}

// Of the bytes that a call wrote, or of its refusal.
impl From<Result<usize, Refusal>> for Written {
    ghost from_gives = { λ answer written. (written.number ≡ number_of answer)
        × (written.length ≡ result_unwrap_or answer 0) };

    fn from(answer: Result<usize, Refusal>) -> Written {
        Written {
            number: refusal::number_of(&answer),
            length: answer.unwrap_or(0),
        }
    }
}
