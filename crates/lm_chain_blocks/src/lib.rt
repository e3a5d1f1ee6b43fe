// The block of a step of a one-time signature's chain, in words (RFC 8554, 4.6, algorithm 4b, step 3):
// I, q, i, j and the chain's value, 55 bytes, with their padding. One block at a time, and four side by side.
//
// A block is made anew for each step. Four of them are made in vectors, from the sums of the step before,
// lane by lane into the words that change: words 0 to 4, 14 and 15 are the same in every step of a leaf's
// chains, and stay. `joined` and the three puts have their shape for the compiler's sake (docs/SPEED.md):
// see each.
#![tactic(auto)]

ghost use Rattle.std.specs.Prelude.{◌≡◌, ℕ, ◌<◌, length, get_or};
ghost use Rattle.sha256_lanes.specs.Lane.{Lane, lane, word_in, changed};
ghost use Rattle.sha256_lanes.specs.Lane.{block_words, room_words};
ghost use Rattle.lm_chain_blocks.specs.Block.{step_block, first_word, across_word, last_word};

use lm_hash::Leaf;
use sha256::State;
use sha256_lane_words::Lanes;
use sha256_lanes::BLOCK_WORDS;

// The bits of I, q, i, j and the value, with which the padding ends (FIPS 180-4, 5.1.1).
const STEP_BITS: u32 = 8 * 55;

// ---- words of a block

// Word 5.
fn first(i: u32, j: u32, a: u32) -> u32
    requires { (i < 65536) × (j < 256) }
    ensures { result ≡ first_word i j a }
{
    i * 65536 + j * 256 + a / 16777216
}

// A word among 6 to 12. Plainly it is x % 16777216 * 256 + y / 16777216; but in that the compiler sees a
// shift across two words, which it has no vector instruction for, and computes it lane by lane. So the low
// byte is turned over twice.
fn joined(x: u32, y: u32) -> u32
    ensures { result ≡ across_word x y }
{
    (x % 16777216 * 256 + 255) ^ (y / 16777216 ^ 255)
}

// Word 13.
fn last(h: u32) -> u32
    ensures { result ≡ last_word h }
{
    h % 16777216 * 256 + 128
}

// The block of step j of chain i.
pub fn step_block(leaf: Leaf, i: u32, j: u32, t: State) -> [u32; BLOCK_WORDS]
    requires { (i < 65536) × (j < 256) }
    ensures { result ≡ step_block leaf i j t }
{
    [
        leaf.i0,
        leaf.i1,
        leaf.i2,
        leaf.i3,
        leaf.q,
        first(i, j, t.a),
        joined(t.a, t.b),
        joined(t.b, t.c),
        joined(t.c, t.d),
        joined(t.d, t.e),
        joined(t.e, t.f),
        joined(t.f, t.g),
        joined(t.g, t.h),
        last(t.h),
        0,
        STEP_BITS,
    ]
}

// ---- the same in each lane

fn firsts(i: Lanes<u32>, j: Lanes<u32>, a: Lanes<u32>) -> Lanes<u32>
    requires { (l : Lane) → (lane l i < 65536) × (lane l j < 256) }
    ensures { (l : Lane) → lane l result ≡ first_word (lane l i) (lane l j) (lane l a) }
{
    i.zip(j).zip(a).map(|((i, j), a)| first(i, j, a))
}

fn joined_lanes(x: Lanes<u32>, y: Lanes<u32>) -> Lanes<u32>
    ensures { (l : Lane) → lane l result ≡ across_word (lane l x) (lane l y) }
{
    x.zip(y).map(|(x, y)| joined(x, y))
}

// ---- four blocks

// Words 5 to 7 of each lane's block. Nine puts in one function would be too many for its proof.
fn put_first(
    i: Lanes<u32>,
    j: Lanes<u32>,
    a: Lanes<u32>,
    b: Lanes<u32>,
    c: Lanes<u32>,
    w: &mut [u32],
)
    requires { (length w.old ≡ room_words) × ((l : Lane) → (lane l i < 65536) × (lane l j < 256)) }
    ensures { (l : Lane) (k : ℕ) → word_in l w.new k
        ≡ changed 7 (across_word (lane l b) (lane l c)) (changed 6 (across_word (lane l a) (lane l b))
        (changed 5 (first_word (lane l i) (lane l j) (lane l a)) (word_in l w.old))) k }
{
    sha256_lane_words::put(w, 5, firsts(i, j, a));
    sha256_lane_words::put(w, 6, joined_lanes(a, b));
    sha256_lane_words::put(w, 7, joined_lanes(b, c));
}

// Words 8 to 10.
fn put_middle(c: Lanes<u32>, d: Lanes<u32>, e: Lanes<u32>, f: Lanes<u32>, w: &mut [u32])
    requires { length w.old ≡ room_words }
    ensures { (l : Lane) (k : ℕ) → word_in l w.new k
        ≡ changed 10 (across_word (lane l e) (lane l f)) (changed 9 (across_word (lane l d) (lane l e))
        (changed 8 (across_word (lane l c) (lane l d)) (word_in l w.old))) k }
{
    sha256_lane_words::put(w, 8, joined_lanes(c, d));
    sha256_lane_words::put(w, 9, joined_lanes(d, e));
    sha256_lane_words::put(w, 10, joined_lanes(e, f));
}

// Words 11 to 13.
fn put_last(f: Lanes<u32>, g: Lanes<u32>, h: Lanes<u32>, w: &mut [u32])
    requires { length w.old ≡ room_words }
    ensures { (l : Lane) (k : ℕ) → word_in l w.new k
        ≡ changed 13 (last_word (lane l h)) (changed 12 (across_word (lane l g) (lane l h))
        (changed 11 (across_word (lane l f) (lane l g)) (word_in l w.old))) k }
{
    sha256_lane_words::put(w, 11, joined_lanes(f, g));
    sha256_lane_words::put(w, 12, joined_lanes(g, h));
    sha256_lane_words::put(w, 13, h.map(last));
}

// Makes the blocks of some step of each lane's chain i those of step j, on the value t: words 5 to 13 of `w`.
pub fn next_blocks(i: Lanes<u32>, j: Lanes<u32>, t: Lanes<State>, w: &mut [u32])
    requires { (length w.old ≡ room_words) × ((l : Lane) → (lane l i < 65536) × (lane l j < 256)) }
    ensures { (l : Lane) (leaf : Leaf) (p : ℕ) (v : State)
        → ((n : ℕ) → n < block_words → word_in l w.old n ≡ get_or (step_block leaf (lane l i) p v) n 0)
        → (n : ℕ) → n < block_words
        → word_in l w.new n ≡ get_or (step_block leaf (lane l i) (lane l j) (lane l t)) n 0 }
{
    let a = Lanes(t.0.a, t.1.a, t.2.a, t.3.a);
    let b = Lanes(t.0.b, t.1.b, t.2.b, t.3.b);
    let c = Lanes(t.0.c, t.1.c, t.2.c, t.3.c);
    let d = Lanes(t.0.d, t.1.d, t.2.d, t.3.d);
    let e = Lanes(t.0.e, t.1.e, t.2.e, t.3.e);
    let f = Lanes(t.0.f, t.1.f, t.2.f, t.3.f);
    let g = Lanes(t.0.g, t.1.g, t.2.g, t.3.g);
    let h = Lanes(t.0.h, t.1.h, t.2.h, t.3.h);
    put_first(i, j, a, b, c, w);
    put_middle(c, d, e, f, w);
    put_last(f, g, h, w);
}

// Makes the blocks of step j of each lane's chain i, on the value t, the first sixteen words of each lane.
pub fn first_blocks(leaf: Leaf, i: Lanes<u32>, j: Lanes<u32>, t: Lanes<State>, w: &mut [u32])
    requires { (length w.old ≡ room_words) × ((l : Lane) → (lane l i < 65536) × (lane l j < 256)) }
    ensures { (l : Lane) (n : ℕ) → n < block_words
        → word_in l w.new n ≡ get_or (step_block leaf (lane l i) (lane l j) (lane l t)) n 0 }
{
    let blocks = Lanes(
        step_block(leaf, i.0, j.0, t.0),
        step_block(leaf, i.1, j.1, t.1),
        step_block(leaf, i.2, j.2, t.2),
        step_block(leaf, i.3, j.3, t.3),
    );
    sha256_lanes::load(blocks, w);
}
