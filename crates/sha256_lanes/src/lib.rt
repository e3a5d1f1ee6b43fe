// SHA-256 of four blocks side by side (FIPS 180-4, 6.2.2), in a shape from which the compiler forms vector
// instructions.
#![tactic(auto)]

ghost use Rattle.std.specs.Prelude.{◌≡◌, ℕ, ◌+◌, ◌-◌, ◌*◌, ◌≤◌, ◌<◌, List, length, get_or, take};
ghost use Rattle.sha256_tables.specs.Constants.{constants};
ghost use Rattle.sha256.specs.Sha256 as fips;
ghost use Rattle.sha256.specs.Sha256.{◌⊞◌, σ₀, σ₁};
ghost use Rattle.sha256_lanes.specs.Lane.{Lane, lane, word_in, changed};
ghost use Rattle.sha256_lanes.specs.Lane.{block_words, room_words};

use sha256::State;
use sha256_lane_words::Lanes;
use sha256_lane_words::functions::round;

// The words of a block (FIPS 180-4, 5.2.1).
pub const BLOCK_WORDS: usize = 16;

// The words of a list in which a schedule of 64 words for each of four lanes stand side by side.
pub const ROOM_WORDS: usize = 4 * 64;

// Two rounds in each lane, with their constants and words of the schedule (FIPS 180-4, 6.2.2, step 3).
// Written out, and called from one place: as a loop over one round it is slower by a fifth.
fn step(
    s: Lanes<State>,
    k0: Lanes<u32>,
    w0: Lanes<u32>,
    k1: Lanes<u32>,
    w1: Lanes<u32>,
) -> Lanes<State>
    ensures { (l : Lane) → lane l result
        ≡ fips.round (fips.round (lane l s) (lane l k0) (lane l w0)) (lane l k1) (lane l w1) }
{
    let a0 = round(s.0, k0.0, w0.0);
    let a1 = round(s.1, k0.1, w0.1);
    let a2 = round(s.2, k0.2, w0.2);
    let a3 = round(s.3, k0.3, w0.3);
    let b0 = round(a0, k1.0, w1.0);
    let b1 = round(a1, k1.1, w1.1);
    let b2 = round(a2, k1.2, w1.2);
    let b3 = round(a3, k1.3, w1.3);
    Lanes(b0, b1, b2, b3)
}

// The constants of the rounds (FIPS 180-4, 4.2.2), the same in each lane.
pub fn table() -> [u32; ROOM_WORDS]
    ensures { (l : Lane) (i : ℕ) → i < 64 → word_in l result i ≡ get_or constants i 0 }
{
    let k = sha256_tables::K;
    let mut r = [0u32; ROOM_WORDS];
    for (i, x) in k.iter().enumerate() {
        sha256_lane_words::put(&mut r, i, sha256_lane_words::same(*x));
    }
    r
}

// Makes the words of four blocks the first sixteen of each lane's schedule.
pub fn load(b: Lanes<[u32; BLOCK_WORDS]>, w: &mut [u32])
    requires { length w.old ≡ room_words }
    ensures { (l : Lane) (i : ℕ) → i < block_words
        → word_in l w.new i ≡ get_or (lane l b) i 0 }
{
    for i in 0..BLOCK_WORDS {
        sha256_lane_words::put(w, i, Lanes(b.0[i], b.1[i], b.2[i], b.3[i]));
    }
}

// Makes word i of each lane's schedule from those before it (FIPS 180-4, 6.2.2, step 1).
fn word_at(w: &mut [u32], i: usize)
    requires { (block_words ≤ i) × (4 * i + 4 ≤ length w.old) }
    ensures { (l : Lane) (k : ℕ) → let v = word_in l w.old in
        word_in l w.new k
        ≡ changed i (σ₁ (v (i - 2)) ⊞ v (i - 7) ⊞ σ₀ (v (i - 15)) ⊞ v (i - 16)) v k }
{
    let v = sha256_lane_words::mix(
        sha256_lane_words::at(w, i - 16),
        sha256_lane_words::at(w, i - 15),
        sha256_lane_words::at(w, i - 7),
        sha256_lane_words::at(w, i - 2),
    );
    sha256_lane_words::put(w, i, v);
}

// Makes words i and i + 1 of each lane's schedule.
fn words_at(w: &mut [u32], i: usize)
    requires { (block_words ≤ i) × (4 * i + 8 ≤ length w.old) }
    ensures { (l : Lane) (m : List ℕ) → length m ≡ block_words → i + 2 ≤ 64
        → ((n : ℕ) → n < i → word_in l w.old n ≡ get_or (fips.schedule m) n 0)
        → (n : ℕ) → n < i + 2 → word_in l w.new n ≡ get_or (fips.schedule m) n 0 }
{
    for j in i..i + 2 {
        word_at(w, j);
    }
}

// Rounds 4 to 63 in each lane, of blocks that are the first sixteen words of `w` (FIPS 180-4, 6.2.2, steps
// 1 to 3), from the same working variables.
//
// The speed of a signature check hangs on this loop (docs/SPEED.md). The working variables of the four
// lanes are carried by it, so that they stay in vector registers; two rounds a turn fill these, one leaves
// copies between them, and more spill. The words of the schedule are made in the turn that uses them. Two a
// turn have to divide the rounds up to 16: so they begin at 4.
fn rounds(u: State, k: &[u32], w: &mut [u32]) -> Lanes<State>
    requires { (length k.now ≡ room_words) × (length w.old ≡ room_words)
        × ((l : Lane) (i : ℕ) → i < 64 → word_in l k.now i ≡ get_or constants i 0) }
    ensures { (l : Lane) (m : List ℕ) → length m ≡ block_words
        → ((i : ℕ) → i < block_words → word_in l w.old i ≡ get_or m i 0)
        → ((i : ℕ) → i < block_words → word_in l w.new i ≡ get_or m i 0)
        × (lane l result ≡ fips.rounds 60 4 (fips.schedule m) u) }
{
    let mut s = sha256_lane_words::same(u);
    for i in (4..64).step_by(2) {
        if BLOCK_WORDS <= i {
            words_at(w, i);
        }
        s = step(
            s,
            sha256_lane_words::at(k, i),
            sha256_lane_words::at(w, i),
            sha256_lane_words::at(k, i + 1),
            sha256_lane_words::at(w, i + 1),
        );
    }
    s
}

// The sums of the working variables after the last round and the hash value (FIPS 180-4, 6.2.2, step 4).
fn sums(s: State, r: Lanes<State>) -> Lanes<State>
    ensures { (l : Lane) → lane l result ≡ fips.plus (lane l r) s }
{
    r.map(|r| r.plus(s))
}

// The hash value of each lane after its block, from the same hash value (FIPS 180-4, 6.2.2). The blocks are
// the first sixteen words of `w`, which keeps them; `u` is what the rounds of their first four words make
// of the working variables, and `k` is the table.
pub fn absorb(s: State, u: State, k: &[u32], w: &mut [u32]) -> Lanes<State>
    requires { (length k.now ≡ room_words) × (length w.old ≡ room_words)
        × ((l : Lane) (i : ℕ) → i < 64 → word_in l k.now i ≡ get_or constants i 0) }
    ensures { (l : Lane) (m : List ℕ) → length m ≡ block_words
        → ((i : ℕ) → i < block_words → word_in l w.old i ≡ get_or m i 0)
        → u ≡ fips.rounds 4 0 (take 4 m) s
        → ((i : ℕ) → i < block_words → word_in l w.new i ≡ get_or m i 0)
        × (lane l result ≡ fips.compress s m) }
{
    sums(s, rounds(u, k, w))
}
