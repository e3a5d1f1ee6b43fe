// The functions of FIPS 180-4 as each lane computes them.
//
// The compiler makes vector instructions of four lanes only where no rotation is seen in one of them, so
// that each sigma is a chain of shifts that begins with a left and a right shift which do not belong
// together. With rotations, or with the two shifts of a rotation side by side, it computes lane by lane,
// and a signature check takes up to twice as long (.ci/run looks at the code that was made).
ghost use Rattle.std.specs.Prelude.{◌≡◌};
ghost use Rattle.sha256.specs.Sha256 as fips;
ghost use Rattle.sha256.specs.Sha256.{◌⊞◌, σ₀, σ₁};

use sha256::State;
use sha256_schedule::functions::add_four;

fn big_sigma0(x: u32) -> u32
    ensures { result ≡ fips.Σ₀ x }
{
    (x << 30) ^ (x >> 13) ^ (x >> 2) ^ (x << 19) ^ (x >> 22) ^ (x << 10)
}

fn big_sigma1(x: u32) -> u32
    ensures { result ≡ fips.Σ₁ x }
{
    (x << 26) ^ (x >> 11) ^ (x >> 6) ^ (x << 21) ^ (x >> 25) ^ (x << 7)
}

fn small_sigma0(x: u32) -> u32
    ensures { result ≡ σ₀ x }
{
    (x << 25) ^ (x >> 18) ^ (x >> 7) ^ (x << 14) ^ (x >> 3)
}

fn small_sigma1(x: u32) -> u32
    ensures { result ≡ σ₁ x }
{
    (x << 15) ^ (x >> 19) ^ (x >> 17) ^ (x << 13) ^ (x >> 10)
}

// A word of the schedule from those 16, 15, 7 and 2 places before it (6.2.2, step 1).
pub fn word(w16: u32, w15: u32, w7: u32, w2: u32) -> u32
    ensures { result ≡ σ₁ w2 ⊞ w7 ⊞ σ₀ w15 ⊞ w16 }
{
    add_four(small_sigma1(w2), w7, small_sigma0(w15), w16)
}

// One round, with its constant and its word of the schedule.
pub fn round(s: State, k: u32, w: u32) -> State
    ensures { result ≡ fips.round s k w }
{
    s.round_from(big_sigma0(s.a), big_sigma1(s.e), k, w)
}
