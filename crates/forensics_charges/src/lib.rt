// What the rules charge a replica with, from two terms, from a receipt and a term, or from the uses of its
// leaves, as a row of the report (document 01, "The report"; document 02, W4 to W6).
#![tactic(auto)]

ghost use Rattle.std.specs.Prelude.{◌≡◌, ◌<◌};
ghost use Rattle.replica.specs.Charges.{charge};
ghost use Rattle.forensics.specs.Findings.{lowest};
ghost use Rattle.forensics.specs.Findings as order;
ghost use Rattle.forensics_charges.specs.Rules.{forgotten};
ghost use Rattle.forensics_charges.specs.Charges as inner;

pub mod leaves;
pub mod rules;

// What a vote is for: two votes of one term for two requests break rule 1 (document 02, W4).
#[derive(Clone, Copy, PartialEq, Eq)]
pub struct Request {
    pub candidate: u16,
    pub last_term: u64,
    pub last_index: u32,
    pub last_pointer: [u8; log_chain::POINTER_SIZE],
}

// A term of a submission as its rules compare it: the vote and the signers of its leader certificate, and the
// index of its last record in this log, where the stamp is.
#[derive(Clone, Copy)]
pub struct Tenure {
    pub term: u64,
    pub request: Request,
    pub signers: u16,
    pub end: u32,
}

// The receipts of a submission: the term and the index of the record, and the replicas that gave them.
#[derive(Clone, Copy)]
pub struct Receipt {
    pub term: u64,
    pub index: u32,
    pub signers: u16,
}

// The rules, with their numbers in the report.
#[derive(Clone, Copy, PartialEq, Eq)]
pub enum Rule {
    TwoVotes = 1,
    TwoStamps = 2,
    StaleVote = 3,
    StaleVoteExchanged = 4,
    OneLeaf = 5,
}

impl Rule {
    fn number(self) -> u8
        ensures { result ≡ inner.number self }
    {
        self as u8
    }
}

// What a replica is charged with: the rule's number and the term. For rule 5 the term is a leaf's number.
// The number is no `Rule`: `lower_row`, `leaf_rows` and `write_accepted` take rows of any number.
#[derive(Clone, Copy)]
pub struct Charge {
    pub rule: u8,
    pub term: u64,
}

// The fork index, and the rows of replicas 1 to 9: what each is charged with, if it is named.
#[derive(Clone, Copy)]
pub struct Findings {
    pub fork: Option<u32>,
    pub rows: [Option<Charge>; forensics::ROW_COUNT],
}

// A rule's place in the order for choosing a row (document 02, W6). No derive has this order: rule 2 is
// before rule 1, and each other byte stands where its number does.
fn rank(rule: u8) -> u64
    ensures { result ≡ order.rank rule }
{
    if rule == Rule::TwoStamps as u8 {
        0
    } else {
        rule as u64 + 1
    }
}

impl Charge {
    // Whether its rule is earlier in this order than another's or, for one rule, its term is lower.
    fn sooner(self, other: Charge) -> bool
        ensures { result ≡ order.sooner (inner.meaning self) (inner.meaning other) }
    {
        rules::end_staler(rank(self.rule), self.term, rank(other.rule), other.term)
    }
}

// The lower of two rows: that of the rule which is earlier in this order and, for one rule, the lower term.
pub fn lower_row(x: Option<Charge>, y: Option<Charge>) -> Option<Charge>
    ensures { inner.charge_of result ≡ inner.least (inner.charge_of x) (inner.charge_of y) }
{
    match (x, y) {
        (Some(c), Some(d)) => if d.sooner(c) { y } else { x },
        (None, _) => y,
        (_, None) => x,
    }
}

// The row for a rule, where it is broken.
fn charged(broken: bool, rule: Rule, term: u64) -> Option<Charge>
    ensures { inner.charge_of result ≡ lowest (charge broken (inner.number rule) term) }
{
    if broken {
        Some(Charge {
            rule: rule.number(),
            term,
        })
    } else {
        None
    }
}

// The row of replica k from a term of the first submission and one of the second: rules 1 and 2.
pub fn between(k: usize, difference: Option<usize>, x: Tenure, y: Tenure) -> Option<Charge>
    requires { 0 < k }
    ensures { inner.charge_of result ≡ lowest (inner.between k difference x y) }
{
    let votes = charged(rules::two_requests(k, x, y), Rule::TwoVotes, x.term);
    let stamps = charged(
        rules::two_logs(k, difference, x, y),
        Rule::TwoStamps,
        x.term,
    );
    lower_row(votes, stamps)
}

// The row of replica k from a receipt of one submission and a term of the other: rule 3 or 4.
pub fn after_receipt(k: usize, rule: Rule, given: Receipt, y: Tenure) -> Option<Charge>
    requires { 0 < k }
    ensures { inner.charge_of result ≡ lowest (charge (forgotten k given y) (inner.number rule) y.term) }
{
    charged(rules::receipt_forgotten(k, given, y), rule, y.term)
}
