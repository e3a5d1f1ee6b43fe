// Digits of a hash value, their checksum and the steps of all chains (RFC 8554, 3.1.3, 4.4 and 4.6).
ghost use Rattle.std.specs.Prelude.{◌≡◌, ◌++◌, ℕ, ◌*◌, ◌/◌, ◌^◌, ◌≤◌, ◌<◌, length, get_or};
ghost use Rattle.lm_digits.specs.Parameters.{message_digits};
ghost use Rattle.words.specs.BigEndian.{be};
ghost use Rattle.lm_digits.specs.Digits.{coef, sum, with_checksum, steps};
ghost use Rattle.lm_digits.specs.Listed.{Listed, chains_most};

use super::{CHAINS_MOST, Parameters, WithSteps};

// The bytes of Q (RFC 8554, 4.1: n), and of Q || Cksm(Q) (4.4).
const HASH_SIZE: usize = 32;

pub const CHECKED_SIZE: usize = HASH_SIZE + 2;

// Digit i of a byte string (RFC 8554, 3.1.3): 8 / bits digits stand in a byte, the first in its
// highest bits.
pub fn digit(s: &[u8], bits: u32, i: usize) -> u32
    requires { (bits * (8 / bits) ≡ 8) × (i * bits / 8 < length s.now) }
    ensures { (result ≡ coef bits s.now i) × (result < 2 ^ bits) }
{
    let each = 8 / (bits as usize);
    let at = i / each;
    let before = bits * ((i % each) as u32);
    let after = 8 - (before + bits);
    (u32::from(s[at]) >> after) % (1 << bits)
}

// How many digits Q has (RFC 8554, appendix B: u).
fn message_digits(bits: u32) -> usize
    requires { bits * (8 / bits) ≡ 8 }
    ensures { result ≡ message_digits bits }
{
    (8 * (HASH_SIZE as u32) / bits) as usize
}

// How far each of the first digits of a byte string is from the largest, added up (RFC 8554, 4.4,
// algorithm 2), where the sum of those before a place is known.
fn digit_sum(s: &[u8], bits: u32, from: usize, count: usize, before: u32) -> u32
    requires { (bits * (8 / bits) ≡ 8) × (from ≤ count) × (count ≤ chains_most)
        × ((i : ℕ) → i < count → i * bits / 8 < length s.now) × (before ≡ sum bits s.now from) }
    ensures { result ≡ sum bits s.now count }
{
    let largest: u32 = (1 << bits) - 1;
    let mut total = before;
    for i in from..count {
        total += largest - digit(s, bits, i);
    }
    total
}

// Q, and the two lowest bytes of a checksum after it.
fn join_checksum(q: [u8; HASH_SIZE], checksum: u32) -> [u8; CHECKED_SIZE]
    ensures { result ≡ q ++ be 2 checksum }
{
    let mut s = [0u8; CHECKED_SIZE];
    s[..HASH_SIZE].copy_from_slice(&q);
    words::put_u16(&mut s, HASH_SIZE, (checksum % 65536) as u16);
    s
}

// Q || Cksm(Q) (RFC 8554, 4.6, algorithm 4b, step 3), with the steps of all chains for it (document 02, W7):
// the sum over the digits of Q is the checksum before its shift, and the steps are that sum over all digits.
pub fn with_checksum(q: [u8; HASH_SIZE], o: Parameters) -> WithSteps<[u8; CHECKED_SIZE]>
    requires { Listed o }
    ensures bytes { result.value ≡ with_checksum o q }
    ensures steps { result.steps ≡ steps o q }
{
    let count = message_digits(o.bits);
    let total = digit_sum(&q, o.bits, 0, count, 0);
    let bytes = join_checksum(q, total << o.shift);
    WithSteps {
        value: bytes,
        steps: digit_sum(&bytes, o.bits, count, o.chains, total),
    }
}

// The first digits of a byte string, one for each of as many chains.
pub fn starts(s: &[u8], bits: u32, count: usize) -> [u32; CHAINS_MOST]
    requires { (bits * (8 / bits) ≡ 8) × (count ≤ chains_most)
        × ((i : ℕ) → i < count → i * bits / 8 < length s.now) }
    ensures { ((i : ℕ) → i < count → get_or result i 0 ≡ coef bits s.now i)
        × ((i : ℕ) → get_or result i 0 < 2 ^ bits) }
{
    let mut d = [0u32; CHAINS_MOST];
    for i in 0..count {
        d[i] = digit(s, bits, i);
    }
    d
}
