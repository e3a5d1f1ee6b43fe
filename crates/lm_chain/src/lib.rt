// The steps of the chains of a one-time signature, in words (RFC 8554, 4.6, algorithm 4b, step 3): one at a
// time, and four chains side by side.
#![tactic(auto)]

ghost use Rattle.std.specs.Prelude.{◌≡◌, ℕ, ◌+◌, ◌^◌, ◌<◌, take};
ghost use Rattle.sha256.specs.Sha256.{rounds, initial, bytes_of};
ghost use Rattle.lm_hash.specs.Identifier.{identifier};
ghost use Rattle.sha256_lanes.specs.Lane.{Lane, lane};
ghost use Rattle.lm_chain_blocks.specs.Block.{step_block};
ghost use Rattle.lm_chain.specs.Chain.{stepped, chain};

use lm_hash::Leaf;
use sha256::State;
use sha256_lane_words::Lanes;
use sha256_lanes::ROOM_WORDS;
use sha256_tables::K;

// Step j of chain i.
pub fn step(leaf: Leaf, i: u32, j: u32, t: State) -> State
    requires { (i < 65536) × (j < 256) }
    ensures { bytes_of result ≡ stepped (identifier leaf) leaf.q j i (bytes_of t) }
{
    State::new().absorb(lm_chain_blocks::step_block(leaf, i, j, t))
}

// The working variables after the first four rounds of a step, which are the same in every step of a leaf's
// chains.
fn shared(leaf: Leaf) -> State
    ensures { (i j : ℕ) (t : State) → result ≡ rounds 4 0 (take 4 (step_block leaf i j t)) initial }
{
    State::new()
        .round(K[0], leaf.i0)
        .round(K[1], leaf.i1)
        .round(K[2], leaf.i2)
        .round(K[3], leaf.i3)
}

// Numbers of steps that are m further on.
pub fn later(j: Lanes<u32>, m: u32) -> Lanes<u32>
    requires { (l : Lane) → lane l j + m < 2 ^ 32 }
    ensures { (l : Lane) → lane l result ≡ lane l j + m }
{
    j.map(|j| j + m)
}

// n steps of each of four chains, side by side: from step j of chain i on in each lane.
//
// The table and the room are made once for all the steps. The blocks of the next step are made at the end
// of each turn, from the sums, and so in vectors; made at its start they are computed lane by lane, and a
// signature check takes twice as long (docs/SPEED.md). Those after the last step are made too, and not
// used: hence j + n < 256.
pub fn run(leaf: Leaf, n: u32, i: Lanes<u32>, j: Lanes<u32>, t: Lanes<State>) -> Lanes<State>
    requires { (l : Lane) → (lane l i < 65536) × (lane l j + n < 256) }
    ensures { (l : Lane) → bytes_of (lane l result)
        ≡ chain (identifier leaf) leaf.q (lane l i) n (lane l j) (bytes_of (lane l t)) }
{
    let u = shared(leaf);
    let k = sha256_lanes::table();
    let mut w = [0u32; ROOM_WORDS];
    lm_chain_blocks::first_blocks(leaf, i, j, t, &mut w);
    let mut s = t;
    for m in 0..n {
        s = sha256_lanes::absorb(State::new(), u, &k, &mut w);
        lm_chain_blocks::next_blocks(i, later(j, m + 1), s, &mut w);
    }
    s
}
