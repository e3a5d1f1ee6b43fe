// A replica's row by rules 1 to 4: the lowest of what they charge it with, from two submissions (document 01,
// "The report"), over the term's width.
ghost use Rattle.std.specs.Prelude.{◌≡◌, true, ◌<◌};
ghost use mathlib.Core.List.{map, flat_map};
ghost use Rattle.submission.specs.Reading.{laid_out};
ghost use Rattle.forensics.specs.Findings.{lowest};
ghost use Rattle.submission_parts.specs.Parts.{Bounds};
ghost use Rattle.forensics_charges.specs.Charges as inner;
ghost use Rattle.forensics_find.specs.Tenures.{tenures_of};
ghost use Rattle.forensics_find.specs.Lowest.{IsLowest};

use super::tenures;
use forensics_charges::{Charge, Receipt, Rule, Tenure};

// The lowest of the rows that the terms of a submission have, each by a call.
fn lowest_of_terms<F: Fn(Tenure) -> Option<Charge>>(
    s: &[u8],
    width: usize,
    size: usize,
    row: F,
) -> Option<Charge>
    requires laid_out { Bounds width size s.now × (laid_out width size s.now ≡ true) }
    requires callable { F.IsAlwaysCallable row }
    ensures { IsLowest (F.post row) (tenures_of width size s.now) result }
{
    let mut best = None;
    let mut at = submission_parts::layout::leaders_from(s, width);
    for later in (0..submission_trailer::leader_count(s)).rev() {
        let next = submission_parts::certificate_end(s, at, width, size);
        let term = tenures::tenure_at(s, width, later, at, next);
        best = forensics_charges::lower_row(best, row(term));
        at = next;
    }
    best
}

// The row of replica k from a term of the first submission and those of the second: rules 1 and 2.
fn against(
    k: usize,
    difference: Option<usize>,
    x: Tenure,
    s: &[u8],
    width: usize,
    size: usize,
) -> Option<Charge>
    requires { (0 < k) × Bounds width size s.now × (laid_out width size s.now ≡ true) }
    ensures { inner.charge_of result
        ≡ lowest (flat_map (inner.between k difference x) (tenures_of width size s.now)) }
{
    lowest_of_terms(
        s,
        width,
        size,
        |y| forensics_charges::between(k, difference, x, y),
    )
}

// The row of replica k from the terms of two submissions: rules 1 and 2.
fn among_terms(
    k: usize,
    difference: Option<usize>,
    a: &[u8],
    b: &[u8],
    width: usize,
    size: usize,
) -> Option<Charge>
    requires { (0 < k) × Bounds width size a.now × (laid_out width size a.now ≡ true)
        × Bounds width size b.now × (laid_out width size b.now ≡ true) }
    ensures { inner.charge_of result
        ≡ lowest (inner.among_terms k difference (tenures_of width size a.now) (tenures_of width size
        b.now)) }
{
    lowest_of_terms(
        a,
        width,
        size,
        |x| against(k, difference, x, b, width, size),
    )
}

// The row of replica k from the receipts of the one and the terms of the other: rule 3 or 4.
fn after_receipts(
    k: usize,
    rule: Rule,
    given: Option<Receipt>,
    s: &[u8],
    width: usize,
    size: usize,
) -> Option<Charge>
    requires { (0 < k) × Bounds width size s.now × (laid_out width size s.now ≡ true) }
    ensures { inner.charge_of result
        ≡ lowest (inner.after_receipts k (inner.number rule) given (tenures_of width size s.now)) }
{
    let given = given?;
    lowest_of_terms(
        s,
        width,
        size,
        |y| forensics_charges::after_receipt(k, rule, given, y),
    )
}

// The row of replica k, from two submissions whose logs differ first at an index, and their receipts.
fn row(
    k: usize,
    difference: Option<usize>,
    a: &[u8],
    b: &[u8],
    first: Option<Receipt>,
    second: Option<Receipt>,
    width: usize,
    size: usize,
) -> Option<Charge>
    requires { (0 < k) × Bounds width size a.now × (laid_out width size a.now ≡ true)
        × Bounds width size b.now × (laid_out width size b.now ≡ true) }
    ensures { inner.charge_of result
        ≡ lowest (inner.ruled_by k difference (tenures_of width size a.now) (tenures_of width size
        b.now) first second) }
{
    let terms = among_terms(k, difference, a, b, width, size);
    let third = after_receipts(k, Rule::StaleVote, first, b, width, size);
    let fourth = after_receipts(k, Rule::StaleVoteExchanged, second, a, width, size);
    forensics_charges::lower_row(forensics_charges::lower_row(terms, third), fourth)
}

// The rows of replicas 1 to 9.
pub fn rows(
    difference: Option<usize>,
    a: &[u8],
    b: &[u8],
    first: Option<Receipt>,
    second: Option<Receipt>,
    width: usize,
    size: usize,
) -> [Option<Charge>; forensics::ROW_COUNT]
    requires { Bounds width size a.now × (laid_out width size a.now ≡ true) × Bounds width size b.now
        × (laid_out width size b.now ≡ true) }
    ensures { map inner.charge_of result
        ≡ inner.rows_by (λ k. lowest (inner.ruled_by k difference (tenures_of width size a.now)
        (tenures_of width size b.now) first second)) 9 1 }
{
    let mut out = [None; forensics::ROW_COUNT];
    for (i, place) in out.iter_mut().enumerate() {
        *place = row(i + 1, difference, a, b, first, second, width, size);
    }
    out
}
