// Rules 1 to 4, on two terms or on a receipt and a term of two submissions (document 01, "The report"; rule
// 1: document 02, W4).
ghost use Rattle.std.specs.Prelude.{◌≡◌, [], ◌∷◌, ◌<◌, eqb, ltb};
ghost use Rattle.refusal.specs.Checks.{all};
ghost use Rattle.roster.specs.Masks.{signer};
ghost use Rattle.log_chain.specs.Ends as ends;
ghost use Rattle.replica.specs.Replica.{same_request};
ghost use Rattle.replica.specs.Charges.{two_votes};
ghost use Rattle.forensics_charges.specs.Rules as inner;

use super::{Receipt, Tenure};

// Whether (t, i) is staler than (u, j): term compared first, then index.
pub fn end_staler(t: u64, i: u64, u: u64, j: u64) -> bool
    ensures { result ≡ ends.staler t i u j }
{
    (t, i) < (u, j)
}

// Whether replica k is among the signers of both.
fn both_signed(k: usize, first: u16, second: u16) -> bool
    requires { 0 < k }
    ensures { result ≡ all (signer first k ∷ signer second k ∷ []) }
{
    roster::signer(first, k) && roster::signer(second, k)
}

// Whether the votes of two terms are for one request: candidate, last term, last index and last pointer.
fn same_request(x: Tenure, y: Tenure) -> bool
    ensures { result ≡ same_request (inner.vote_of x) (inner.vote_of y) }
{
    x.request == y.request
}

// Whether the votes of two terms are of one term, and for different requests.
fn two_votes(x: Tenure, y: Tenure) -> bool
    ensures { result ≡ two_votes (inner.vote_of x) (inner.vote_of y) }
{
    x.term == y.term && !same_request(x, y)
}

// Rule 1: whether replica k voted for different requests in one term.
pub fn two_requests(k: usize, x: Tenure, y: Tenure) -> bool
    requires { 0 < k }
    ensures { result ≡ inner.two_requests k x y }
{
    both_signed(k, x.signers, y.signers) && two_votes(x, y)
}

// Whether replica k is the candidate x of term a and the candidate y of term b, and the terms are one.
fn both_stamped(k: usize, x: u16, y: u16, a: u64, b: u64) -> bool
    ensures { result ≡ all (eqb x k ∷ eqb y k ∷ eqb a b ∷ []) }
{
    x as usize == k && y as usize == k && a == b
}

// Whether logs differ first at an index that is not above two others.
fn reached(difference: Option<usize>, x: u32, y: u32) -> bool
    ensures { result ≡ inner.reached difference x y }
{
    match difference {
        Some(index) => index <= x as usize && index <= y as usize,
        None => false,
    }
}

// Rule 2: whether replica k stamped different logs in one term. They differ first at an index, if at all.
pub fn two_logs(k: usize, difference: Option<usize>, x: Tenure, y: Tenure) -> bool
    ensures { result ≡ inner.two_logs k difference x y }
{
    both_stamped(k, x.request.candidate, y.request.candidate, x.term, y.term)
        && reached(difference, x.end, y.end)
}

// Whether a vote is of a higher term than a receipt, and for a staler log.
fn stale_vote(given: Receipt, y: Tenure) -> bool
    ensures { result ≡ all (ltb given.term y.term ∷ ends.staler y.request.last_term
        y.request.last_index given.term given.index ∷ []) }
{
    given.term < y.term
        && end_staler(
            y.request.last_term,
            y.request.last_index as u64,
            given.term,
            given.index as u64,
        )
}

// Rules 3 and 4: whether replica k gave a receipt and voted in a higher term for a staler log.
pub fn receipt_forgotten(k: usize, given: Receipt, y: Tenure) -> bool
    requires { 0 < k }
    ensures { result ≡ inner.forgotten k given y }
{
    both_signed(k, given.signers, y.signers) && stale_vote(given, y)
}
