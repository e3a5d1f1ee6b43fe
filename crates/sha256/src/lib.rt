// SHA-256 (FIPS 180-4, 5.1.1 to 6.2.2): the state by value, and its methods.
#![tactic(auto)]

ghost use Rattle.std.specs.Prelude.{◌≡◌, ◌+◌, ◌-◌, ◌%◌, ◌^◌, ◌≤◌, ◌<◌, length, take, drop, replicate};
ghost use mathlib.Core.List.{◌∷◌, ◌++◌, flat_map};
ghost use Rattle.words.specs.BigEndian.{be};
ghost use Rattle.sha256_tables.specs.Constants.{constants};
ghost use Rattle.sha256.specs.Sha256 as fips;

use sha256_schedule::functions::{add, add_four, big_sigma0, big_sigma1, choose, majority};
use sha256_tables::{INITIAL, K};

// The hash value, and the working variables of a block (FIPS 180-4, 6.2).
#[derive(Clone, Copy)]
pub struct State {
    pub a: u32,
    pub b: u32,
    pub c: u32,
    pub d: u32,
    pub e: u32,
    pub f: u32,
    pub g: u32,
    pub h: u32,
}

impl State {
    // The initial hash value (FIPS 180-4, 5.3.3).
    pub fn new() -> State
        ensures { result ≡ fips.initial }
    {
        let [a, b, c, d, e, f, g, h] = INITIAL;
        State {
            a,
            b,
            c,
            d,
            e,
            f,
            g,
            h,
        }
    }

    // T1 of a round (FIPS 180-4, 6.2.2, step 3), from Σ1(e).
    fn temp1(self, sigma: u32, k: u32, w: u32) -> u32
        requires { sigma ≡ fips.Σ₁ self.e }
        ensures { result ≡ fips.temp₁ self k w }
    {
        let chosen = choose(self.e, self.f, self.g);
        add(add_four(self.h, sigma, chosen, k), w)
    }

    // T2 of a round, from Σ0(a).
    fn temp2(self, sigma: u32) -> u32
        requires { sigma ≡ fips.Σ₀ self.a }
        ensures { result ≡ fips.temp₂ self }
    {
        add(sigma, majority(self.a, self.b, self.c))
    }

    // One round, with a constant and a word of the schedule, from Σ0(a) and Σ1(e), which more than one
    // form of code computes.
    pub fn round_from(self, sigma0: u32, sigma1: u32, k: u32, w: u32) -> State
        requires { (sigma0 ≡ fips.Σ₀ self.a) × (sigma1 ≡ fips.Σ₁ self.e) }
        ensures { result ≡ fips.round self k w }
    {
        let t1 = self.temp1(sigma1, k, w);
        let t2 = self.temp2(sigma0);
        State {
            a: add(t1, t2),
            b: self.a,
            c: self.b,
            d: self.c,
            e: add(self.d, t1),
            f: self.e,
            g: self.f,
            h: self.g,
        }
    }

    // One round, with a constant and a word of the schedule.
    pub fn round(self, k: u32, w: u32) -> State
        ensures { result ≡ fips.round self k w }
    {
        self.round_from(big_sigma0(self.a), big_sigma1(self.e), k, w)
    }

    // The sums, field by field.
    pub fn plus(self, s: State) -> State
        ensures { result ≡ fips.plus self s }
    {
        State {
            a: add(self.a, s.a),
            b: add(self.b, s.b),
            c: add(self.c, s.c),
            d: add(self.d, s.d),
            e: add(self.e, s.e),
            f: add(self.f, s.f),
            g: add(self.g, s.g),
            h: add(self.h, s.h),
        }
    }

    // Round t, with its constant and its word of the schedule.
    fn round_at(self, k: &[u32; 64], w: &[u32; 64], t: usize) -> State
        requires { (t < 64) × (k.now ≡ constants) }
        ensures { result ≡ fips.rounds 1 t w.now self }
    {
        self.round(k[t], w[t])
    }

    // Eight rounds from a number on. They are written out, and the number is a constant of each call: the
    // compiler takes a function of this size into its caller only where it is called from one place, as
    // each instance is, and one loop over eight rounds is slower (docs/SPEED.md, "Scalar SHA-256").
    fn eight_rounds<const FROM: usize>(self, k: &[u32; 64], w: &[u32; 64]) -> State
        requires { (FROM + 8 ≤ 64) × (k.now ≡ constants) }
        ensures { result ≡ fips.rounds 8 FROM w.now self }
    {
        self.round_at(k, w, FROM)
            .round_at(k, w, FROM + 1)
            .round_at(k, w, FROM + 2)
            .round_at(k, w, FROM + 3)
            .round_at(k, w, FROM + 4)
            .round_at(k, w, FROM + 5)
            .round_at(k, w, FROM + 6)
            .round_at(k, w, FROM + 7)
    }

    // The sixty-four rounds (FIPS 180-4, 6.2.2, steps 2 and 3), written out, so that the compiler mixes
    // them with the schedule's words.
    fn rounds(self, k: &[u32; 64], w: &[u32; 64]) -> State
        requires { k.now ≡ constants }
        ensures { result ≡ fips.rounds 64 0 w.now self }
    {
        self.eight_rounds::<0>(k, w)
            .eight_rounds::<8>(k, w)
            .eight_rounds::<16>(k, w)
            .eight_rounds::<24>(k, w)
            .eight_rounds::<32>(k, w)
            .eight_rounds::<40>(k, w)
            .eight_rounds::<48>(k, w)
            .eight_rounds::<56>(k, w)
    }

    // The hash value after one more block of sixteen words (FIPS 180-4, 6.2.2).
    pub fn absorb(self, block: [u32; 16]) -> State
        ensures { result ≡ fips.compress self block }
    {
        let k = K;
        let w = sha256_schedule::schedule(block);
        self.rounds(&k, &w).plus(self)
    }

    // The hash value after every whole block of a slice (FIPS 180-4, 6.2).
    pub fn absorb_all(self, bytes: &[u8]) -> State
        ensures { result ≡ fips.hash self bytes.now }
    {
        let mut s = self;
        for block in bytes.chunks_exact(64) {
            s = s.absorb(block_at(block, 0));
        }
        s
    }

    // The hash value after the last bytes of a message of `total` bytes, fewer than a block, and their
    // padding (FIPS 180-4, 5.1.1).
    pub fn finish(self, tail: &[u8], total: usize) -> State
        requires { (length tail.now ≡ total % 64) × (total < 2 ^ 29) }
        ensures { result ≡ fips.hash self (tail.now ++ fips.padding total) }
    {
        let bits = (8 * total) as u32;
        let end = closed(tail);
        if tail.len() < 56 {
            return self.absorb(sealed(end, bits));
        }
        self.absorb(block_at(&end, 0))
            .absorb(sealed([0u8; 64], bits))
    }

    // The 32 bytes of the hash value.
    pub fn bytes(self) -> [u8; 32]
        ensures { result ≡ fips.bytes_of self }
    {
        bytes_of([
            self.a, self.b, self.c, self.d, self.e, self.f, self.g, self.h,
        ])
    }
}

// The sixteen words of the block at a place (FIPS 180-4, 5.2.1).
pub fn block_at(bytes: &[u8], at: usize) -> [u32; 16]
    requires { at + 64 ≤ length bytes.now }
    ensures { result ≡ fips.parse 16 (drop at bytes.now) }
{
    let mut m = [0u32; 16];
    for i in 0..16 {
        m[i] = words::u32_at(bytes, at + 4 * i);
    }
    m
}

// The last bytes of a message, the byte 128 and zeros to a whole block.
fn closed(tail: &[u8]) -> [u8; 64]
    requires { length tail.now < 64 }
    ensures { result ≡ tail.now ++ 128 ∷ replicate (63 - length tail.now) 0 }
{
    let mut block = [0u8; 64];
    block[..tail.len()].copy_from_slice(tail);
    block[tail.len()] = 128;
    block
}

// The sixteen words of a block whose last four bytes are replaced by a length in bits.
fn sealed(block: [u8; 64], bits: u32) -> [u32; 16]
    ensures { result ≡ fips.parse 16 (take 60 block ++ be 4 bits) }
{
    let mut last = block;
    words::put_u32(&mut last, 60, bits);
    block_at(&last, 0)
}

// The bytes of eight words.
fn bytes_of(w: [u32; 8]) -> [u8; 32]
    ensures { result ≡ flat_map (be 4) w }
{
    let mut bytes = [0u8; 32];
    for i in 0..8 {
        words::put_u32(&mut bytes, 4 * i, w[i]);
    }
    bytes
}
