// What the signature check says: its number (document 01, "Digest and signature"), its leaf (document 02, W5)
// and its chain steps (W7).
#![tactic(auto)]

ghost use Rattle.std.specs.Prelude.{◌≡◌};
ghost use Rattle.lm_answer.specs.Number as paper;

// What the check says of a signature: good, with the number of its leaf and the chain steps that the check
// took; bad, with the chain steps; or neither, for a long message.
#[derive(Clone, Copy)]
pub enum Answer {
    Good(u32, u32),
    Bad(u32),
    Long,
}

// An answer as C has it: its number, the leaf of a good signature, or else 0, and the chain steps.
#[repr(C)]
#[derive(Clone, Copy)]
pub struct LmsAnswer {
    pub number: u32,
    pub leaf: u32,
    pub steps: u32,
}

impl Answer {
    // Document 01's number of it: 0 good, 15 bad, 16 long message.
    pub fn number(self) -> u32
        ensures { result ≡ paper.answer_number self }
    {
        match self {
            Answer::Good(_, _) => 0,
            Answer::Bad(_) => 15,
            Answer::Long => 16,
        }
    }

    // The leaf of a good signature; 0 where there is none.
    pub fn leaf(self) -> u32
        ensures { result ≡ paper.answer_leaf self }
    {
        match self {
            Answer::Good(leaf, _) => leaf,
            Answer::Bad(_) | Answer::Long => 0,
        }
    }

    // The chain steps of the check, whether the signature is good or bad; 0 for a long message.
    pub fn steps(self) -> u32
        ensures { result ≡ paper.answer_steps self }
    {
        match self {
            Answer::Good(_, steps) | Answer::Bad(steps) => steps,
            Answer::Long => 0,
        }
    }
}

impl From<Answer> for LmsAnswer {
    ghost from_gives = { λ answer c. c ≡ record {
      number = paper.answer_number answer;
      leaf = paper.answer_leaf answer;
      steps = paper.answer_steps answer;
    } };

    fn from(answer: Answer) -> LmsAnswer {
        LmsAnswer {
            number: answer.number(),
            leaf: answer.leaf(),
            steps: answer.steps(),
        }
    }
}
