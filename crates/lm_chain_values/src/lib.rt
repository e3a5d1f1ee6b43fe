// The values of all chains of a one-time signature, eight words each (RFC 8554, 4.6, algorithm 4b, step 3).
#![tactic(auto)]

ghost use Rattle.std.specs.Prelude.{◌≡◌, ℕ, ◌+◌, ◌*◌, ◌≤◌, ◌<◌, length, take, drop};
ghost use Rattle.sha256.specs.Sha256.{bytes_of};
ghost use Rattle.sha256_lanes.specs.Lane.{Lane, lane, changed};
ghost use Rattle.lm_digits.specs.Listed.{chains_most};
ghost use Rattle.lm_chain_values.specs.Values.{value_at};

use lm_digits::CHAINS_MOST;
use sha256::State;
use sha256_lane_words::Lanes;

// The words of the values of all chains, eight for each chain of the type that has the most.
pub const VALUES_WORDS: usize = 8 * CHAINS_MOST;

// The value of chain i.
pub fn value_at(v: &[u32], i: usize) -> State
    requires { 8 * i + 8 ≤ length v.now }
    ensures { bytes_of result ≡ value_at v.now i }
{
    let at = 8 * i;
    State {
        a: v[at],
        b: v[at + 1],
        c: v[at + 2],
        d: v[at + 3],
        e: v[at + 4],
        f: v[at + 5],
        g: v[at + 6],
        h: v[at + 7],
    }
}

// Makes a value that of chain i.
pub fn put_value(v: &mut [u32], i: usize, s: State)
    requires { 8 * i + 8 ≤ length v.old }
    ensures { (k : ℕ) → value_at v.new k
        ≡ changed i (bytes_of s) (value_at v.old) k }
{
    let at = 8 * i;
    v[at] = s.a;
    v[at + 1] = s.b;
    v[at + 2] = s.c;
    v[at + 3] = s.d;
    v[at + 4] = s.e;
    v[at + 5] = s.f;
    v[at + 6] = s.g;
    v[at + 7] = s.h;
}

// The values of four chains.
pub fn four_at(v: &[u32], i: Lanes<usize>) -> Lanes<State>
    requires { (l : Lane) → 8 * lane l i + 8 ≤ length v.now }
    ensures { (l : Lane) → bytes_of (lane l result) ≡ value_at v.now (lane l i) }
{
    i.map(|k| value_at(v, k))
}

// Makes values those of four chains.
pub fn put_four(v: &mut [u32], i: Lanes<usize>, t: Lanes<State>)
    requires { (l : Lane) → 8 * lane l i + 8 ≤ length v.old }
    ensures { (k : ℕ) → value_at v.new k
        ≡ changed i.3 (bytes_of t.3) (changed i.2 (bytes_of t.2)
        (changed i.1 (bytes_of t.1) (changed i.0 (bytes_of t.0) (value_at v.old)))) k }
{
    put_value(v, i.0, t.0);
    put_value(v, i.1, t.1);
    put_value(v, i.2, t.2);
    put_value(v, i.3, t.3);
}

// The values that the chains begin with: y[0], y[1], ..
pub fn load(y: &[u8], count: usize) -> [u32; VALUES_WORDS]
    requires { (count ≤ chains_most) × (32 * count ≤ length y.now) }
    ensures { (k : ℕ) → k < count → value_at result k ≡ take 32 (drop (32 * k) y.now) }
{
    let mut v = [0u32; VALUES_WORDS];
    for i in 0..count {
        put_value(&mut v, i, lm_hash::value_at(y, 32 * i));
    }
    v
}
