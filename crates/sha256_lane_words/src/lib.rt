// Values of four lanes side by side, and the functions of FIPS 180-4, 4.1.2, on words in them, in a shape
// from which the compiler forms vector instructions.
#![tactic(auto)]

ghost use Rattle.std.specs.Prelude.{◌≡◌, ℕ, ◌+◌, ◌*◌, ◌≤◌, length};
ghost use Rattle.sha256.specs.Sha256.{◌⊞◌, σ₀, σ₁};
ghost use Rattle.sha256_lane_words.specs.Lane.{Lane, lane, word_in, changed};

pub mod functions;

use functions::word;

// One of four in each lane: a word, a hash value, the number of a chain.
#[derive(Clone, Copy)]
pub struct Lanes<T>(pub T, pub T, pub T, pub T);

impl<T: Copy> Lanes<T> {
    // What a function makes of what stands in each lane.
    pub fn map<U, F: Fn(T) -> U>(self, f: F) -> Lanes<U>
        requires { (l : Lane) → F.pre f (lane l self) }
        ensures { (l : Lane) → F.post f (lane l self) (lane l result) }
    {
        Lanes(f(self.0), f(self.1), f(self.2), f(self.3))
    }

    // What stands in each lane of two, side by side.
    pub fn zip<U: Copy>(self, other: Lanes<U>) -> Lanes<(T, U)>
        ensures { (l : Lane) → lane l result ≡ (lane l self, lane l other) }
    {
        Lanes(
            (self.0, other.0),
            (self.1, other.1),
            (self.2, other.2),
            (self.3, other.3),
        )
    }
}

// The same in each lane.
pub fn same<T: Copy>(x: T) -> Lanes<T>
    ensures { (l : Lane) → lane l result ≡ x }
{
    Lanes(x, x, x, x)
}

// A word of the schedule from those 16, 15, 7 and 2 places before it, in each lane (FIPS 180-4, 6.2.2,
// step 1).
pub fn mix(w16: Lanes<u32>, w15: Lanes<u32>, w7: Lanes<u32>, w2: Lanes<u32>) -> Lanes<u32>
    ensures { (l : Lane) → lane l result ≡ σ₁ (lane l w2) ⊞ lane l w7 ⊞ σ₀ (lane l w15) ⊞ lane l w16 }
{
    Lanes(
        word(w16.0, w15.0, w7.0, w2.0),
        word(w16.1, w15.1, w7.1, w2.1),
        word(w16.2, w15.2, w7.2, w2.2),
        word(w16.3, w15.3, w7.3, w2.3),
    )
}

// The words at place i of a list in which four stand side by side.
pub fn at(w: &[u32], i: usize) -> Lanes<u32>
    requires { 4 * i + 4 ≤ length w.now }
    ensures { (l : Lane) → lane l result ≡ word_in l w.now i }
{
    let n = 4 * i;
    Lanes(w[n], w[n + 1], w[n + 2], w[n + 3])
}

// Makes words those at place i of such a list.
pub fn put(w: &mut [u32], i: usize, v: Lanes<u32>)
    requires { 4 * i + 4 ≤ length w.old }
    ensures { (l : Lane) (k : ℕ) → word_in l w.new k
        ≡ changed i (lane l v) (word_in l w.old) k }
{
    let n = 4 * i;
    w[n] = v.0;
    w[n + 1] = v.1;
    w[n + 2] = v.2;
    w[n + 3] = v.3;
}
