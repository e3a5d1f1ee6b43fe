// The message schedule (FIPS 180-4, 6.2.2, step 1), and the functions of words that it and the rounds use.
#![tactic(auto)]

ghost use Rattle.std.specs.Prelude.{◌≡◌, ℕ, ◌+◌, ◌-◌, ◌<◌, ◌≤◌, List, length, take};
ghost use Rattle.sha256_schedule.specs.Words as fips;
ghost use Rattle.sha256_schedule.specs.Words.{◌⊞◌, σ₀, σ₁};

pub mod functions;

use functions::{add_four, small_sigma0, small_sigma1};

// A word from those 16, 15, 7 and 2 places before it.
fn next(w16: u32, w15: u32, w7: u32, w2: u32) -> u32
    ensures { result ≡ σ₁ w2 ⊞ w7 ⊞ σ₀ w15 ⊞ w16 }
{
    add_four(small_sigma1(w2), w7, small_sigma0(w15), w16)
}

// The word at place t, after which one word more is the schedule's.
fn word(w: &mut [u32; 64], t: usize)
    requires { (16 ≤ t) × (t < 64) }
    ensures { (m : List ℕ) → (length w.old ≡ 64)
        × (take t w.old ≡ fips.extend (t - 16) m)
        → (length w.new ≡ 64) × (take (t + 1) w.new ≡ fips.extend (t + 1 - 16) m) }
{
    w[t] = next(w[t - 16], w[t - 15], w[t - 7], w[t - 2]);
}

// Eight words from a place on. They are written out, and the place is a constant of each call, as in the
// rounds of `sha256` and for the same reason: in a loop they are not mixed with the rounds, and a block
// takes a fifth longer (docs/SPEED.md, "Scalar SHA-256").
fn words<const FROM: usize>(w: &mut [u32; 64])
    requires { (16 ≤ FROM) × (FROM + 8 ≤ 64) }
    ensures { (m : List ℕ) → (length w.old ≡ 64)
        × (take FROM w.old ≡ fips.extend (FROM - 16) m)
        → (length w.new ≡ 64) × (take (FROM + 8) w.new ≡ fips.extend (FROM + 8 - 16) m) }
{
    word(w, FROM);
    word(w, FROM + 1);
    word(w, FROM + 2);
    word(w, FROM + 3);
    word(w, FROM + 4);
    word(w, FROM + 5);
    word(w, FROM + 6);
    word(w, FROM + 7);
}

// The sixty-four words of a block's schedule, written out, so that the compiler keeps them in registers.
pub fn schedule(m: [u32; 16]) -> [u32; 64]
    ensures { result ≡ fips.schedule m }
{
    let mut w = [0u32; 64];
    w[..16].copy_from_slice(&m);
    words::<16>(&mut w);
    words::<24>(&mut w);
    words::<32>(&mut w);
    words::<40>(&mut w);
    words::<48>(&mut w);
    words::<56>(&mut w);
    w
}
