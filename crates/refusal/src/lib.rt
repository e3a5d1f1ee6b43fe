// Tests taken together, and the number of the first check that is not met (document 01, "What stops an
// audit"): definitions and laws; and the refusals, each with its number.
#![tactic(auto)]

ghost use Rattle.std.specs.Prelude.{◌≡◌};
ghost use Rattle.refusal.specs.Refusals as paper;

// What a call refuses with. The numbers and names are those of docs/NUMBERS.md.
#[derive(Clone, Copy, PartialEq, Eq)]
pub enum Refusal {
    ShortReport = 1,
    RosterSize = 2,
    KeyType = 3,
    DuplicateKey = 4,
    Size = 5,
    Version = 6,
    Cluster = 7,
    Counts = 8,
    Layout = 9,
    Signers = 10,
    TermOrder = 11,
    TermCount = 12,
    Leader = 13,
    CommitIndex = 14,
    Signature = 15,
    LongMessage = 16,
    LengthCount = 17,
    LengthSum = 18,
    Item = 19,
    NoLeader = 20,
    ShortOutput = 21,
}

impl Refusal {
    // Its number, as callers in C have it.
    pub fn number(self) -> u32
        ensures { result ≡ paper.number self }
    {
        self as u32
    }
}

// The number of an answer: 0 where nothing is refused.
pub fn number_of<T>(answer: &Result<T, Refusal>) -> u32
    ensures { result ≡ paper.number_of answer.now }
{
    match answer {
        Ok(_) => 0,
        Err(refusal) => refusal.number(),
    }
}
