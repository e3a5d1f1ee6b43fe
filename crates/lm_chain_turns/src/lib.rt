// Chains of a one-time signature moved on: four side by side while there are four, and one by one (RFC 8554,
// 4.6, algorithm 4b, step 3).
#![tactic(auto)]

ghost use Rattle.std.specs.Prelude.{◌≡◌, ℕ, ◌+◌, ◌≤◌, ◌<◌, length, get_or};
ghost use Rattle.sha256.specs.Sha256.{bytes_of};
ghost use Rattle.sha256_lanes.specs.Lane.{Lane, lane, changed};
ghost use Rattle.lm_hash.specs.Identifier.{identifier};
ghost use Rattle.lm_chain.specs.Chain.{chain};
ghost use Rattle.lm_digits.specs.Listed.{chains_most};
ghost use Rattle.lm_chain_values.specs.Values.{value_at, values_words};
ghost use Rattle.lm_chain_turns.specs.Ahead.{ahead};

use lm_chain_order::Order;
use lm_hash::Leaf;
use sha256::State;
use sha256_lane_words::Lanes;

// Makes the next steps of four chains others.
fn put_steps(steps: &mut [u32], i: Lanes<usize>, j: Lanes<u32>)
    requires { (i.0 < length steps.old) × (i.1 < length steps.old)
        × (i.2 < length steps.old) × (i.3 < length steps.old) }
    ensures { (k : ℕ) → get_or steps.new k 0
        ≡ changed i.3 j.3 (changed i.2 j.2
        (changed i.1 j.1 (changed i.0 j.0 (λ n. get_or steps.old n 0)))) k }
{
    steps[i.0] = j.0;
    steps[i.1] = j.1;
    steps[i.2] = j.2;
    steps[i.3] = j.3;
}

// The next steps of four chains.
fn steps_at(steps: &[u32], i: Lanes<usize>) -> Lanes<u32>
    requires { (l : Lane) → lane l i < length steps.now }
    ensures { (l : Lane) → lane l result ≡ get_or steps.now (lane l i) 0 }
{
    i.map(|k| steps[k])
}

// How many steps four chains can make together.
fn fewest(last: u32, j: Lanes<u32>) -> u32
    requires { (l : Lane) → lane l j ≤ last }
    ensures { (l : Lane) → lane l j + result ≤ last }
{
    last - j.0.max(j.1).max(j.2.max(j.3))
}

// The values of four chains n steps on.
fn run(leaf: Leaf, n: u32, i: Lanes<usize>, j: Lanes<u32>, v: &[u32]) -> Lanes<State>
    requires { (length v.now ≡ values_words)
        × ((l : Lane) → (lane l i < chains_most) × (lane l j + n < 256)) }
    ensures { (l : Lane) → bytes_of (lane l result)
        ≡ chain (identifier leaf) leaf.q (lane l i) n (lane l j) (value_at v.now (lane l i)) }
{
    lm_chain::run(
        leaf,
        n,
        i.map(|k| k as u32),
        j,
        lm_chain_values::four_at(v, i),
    )
}

// Moves four chains on together, until one of them is at its end.
fn turn(leaf: Leaf, last: u32, i: Lanes<usize>, steps: &mut [u32], v: &mut [u32])
    requires { (last < 256) × (length steps.old ≡ chains_most) × (length v.old ≡ values_words)
        × ((l : Lane) → lane l i < chains_most) × ((k : ℕ) → get_or steps.old k 0 ≤ last) }
    ensures { (k : ℕ) → (get_or steps.new k 0 ≤ last)
        × (ahead (identifier leaf) leaf.q last steps.new v.new k
        ≡ ahead (identifier leaf) leaf.q last steps.old v.old k) }
{
    let j = steps_at(steps, i);
    let n = fewest(last, j);
    let t = run(leaf, n, i, j, v);
    lm_chain_values::put_four(v, i, t);
    put_steps(steps, i, lm_chain::later(j, n));
}

// Moves chains on, four at a time, while four are not at their ends: each turn brings one to its end.
pub fn together(leaf: Leaf, last: u32, p: usize, steps: &mut [u32], v: &mut [u32])
    requires { (last < 256) × (p ≤ chains_most) × (length steps.old ≡ chains_most)
        × (length v.old ≡ values_words) × ((k : ℕ) → get_or steps.old k 0 ≤ last) }
    ensures { (k : ℕ) → (get_or steps.new k 0 ≤ last)
        × (ahead (identifier leaf) leaf.q last steps.new v.new k
        ≡ ahead (identifier leaf) leaf.q last steps.old v.old k) }
{
    let order = Order::of(steps, p);
    let mut from = 0;
    for _ in 0..p {
        let Some((place, chains)) = order.next_four(steps, last, from, p) else {
            return;
        };
        turn(leaf, last, chains, steps, v);
        from = place;
    }
}

// Brings chain i to its end.
pub fn finish(leaf: Leaf, last: u32, i: usize, steps: &[u32], v: &mut [u32])
    requires { (last < 256) × (i < chains_most) × (length steps.now ≡ chains_most)
        × (length v.old ≡ values_words) × (get_or steps.now i 0 ≤ last) }
    ensures { (k : ℕ) → value_at v.new k
        ≡ changed i (ahead (identifier leaf) leaf.q last steps.now v.old i)
        (value_at v.old) k }
{
    let mut t = lm_chain_values::value_at(v, i);
    for j in steps[i]..last {
        t = lm_chain::step(leaf, i as u32, j, t);
    }
    lm_chain_values::put_value(v, i, t);
}
