// The checks of a roster (document 01, "What stops an audit", numbers 2 to 4).
#![tactic(auto)]

ghost use Rattle.std.specs.Prelude.{◌≡◌, MatchOption, Bool, true, false, ℕ, ◌+◌, ◌*◌, ◌≤◌, ◌<◌, length};
ghost use Rattle.refusal.specs.Refusals.{number_of};
ghost use Rattle.lm_format.specs.Format.{key_size};
ghost use Rattle.roster.specs.Roster as paper;

mod keys;

use refusal::Refusal;

// The fewest replicas that a roster may have (document 01, "What stops an audit", number 2).
const REPLICAS_MIN: usize = 3;

// The types that a key may have (document 01, "What stops an audit", number 3).
const ONE_TIME: u32 = 4;

const TREE_MIN: u32 = 5;

const TREE_MAX: u32 = 9;

// n, if it is allowed and the length is that of n keys.
fn sized(roster: &[u8]) -> Option<usize>
    ensures { MatchOption result (paper.sized roster.now ≡ false)
        (λ n. (paper.sized roster.now ≡ true) × (n ≡ paper.replicas roster.now)
        × (paper.head_size + key_size * n ≤ length roster.now)) }
{
    if roster.len() < roster::HEAD_SIZE {
        return None;
    }
    let n = roster::replicas(roster);
    if !(REPLICAS_MIN..=roster::REPLICAS_MOST).contains(&n) {
        return None;
    }
    if roster.len() != roster::HEAD_SIZE + lm_format::KEY_SIZE * n {
        return None;
    }
    Some(n)
}

// The one-time type of replica k's key.
fn one_time_type(roster: &[u8], k: usize) -> u32
    requires { (0 < k) × (paper.head_size + key_size * k ≤ length roster.now) }
    ensures { result ≡ paper.one_time_type (paper.key_of roster.now k) }
{
    words::u32_at(roster::key_of(roster, k), 4)
}

// Whether replica k's types are allowed, and its tree type is that of replica 1.
fn typed(roster: &[u8], k: usize) -> bool
    requires { (0 < k) × (paper.head_size + key_size * k ≤ length roster.now) }
    ensures { result ≡ paper.typed roster.now k }
{
    let tree = roster::tree_type(roster, k);
    one_time_type(roster, k) == ONE_TIME
        && (TREE_MIN..=TREE_MAX).contains(&tree)
        && tree == roster::tree_type(roster, 1)
}

// Whether a test holds of each of replicas 1 to n.
fn every_replica<F: Fn(usize) -> bool>(n: usize, test: F) -> bool
    requires { (k : ℕ) → 0 < k → k ≤ n → F.pre test k }
    ensures { (says : ℕ → Bool) → ((k : ℕ) (b : Bool) → F.post test k b → b ≡ says k)
        → result ≡ paper.every_replica n says }
{
    for k in 1..=n {
        if !test(k) {
            return false;
        }
    }
    true
}

// The roster's refusal, if there is one.
pub fn validate(roster: &[u8]) -> Result<(), Refusal>
    ensures { number_of result ≡ paper.roster_number roster.now }
{
    let Some(n) = sized(roster) else {
        return Err(Refusal::RosterSize);
    };
    if !every_replica(n, |k| typed(roster, k)) {
        return Err(Refusal::KeyType);
    }
    if !every_replica(n, |k| keys::single(roster, k)) {
        return Err(Refusal::DuplicateKey);
    }
    Ok(())
}
