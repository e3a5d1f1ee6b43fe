// Keys and signatures as bytes (RFC 8554, 5.3 and 5.4): the height of a tree type, what a signature must be
// before a hash is computed (5.4.2, algorithm 6a, step 2), and, as definitions, its leaf (document 02, W5).
#![tactic(auto)]

ghost use Rattle.std.specs.Prelude.{◌≡◌, ◌≤◌, length};
ghost use Rattle.lm_digits.specs.Listed.{Listed};
ghost use Rattle.lm_format.specs.Format as rfc;
ghost use Rattle.lm_format.specs.Formed as tests;
ghost use Rattle.lm_format.specs.Bounds.{height_most, one_time_most};

use lm_digits::Parameters;

// The bytes of a key (RFC 8554, 5.3).
pub const KEY_SIZE: usize = 56;

// Where I and T[1] stand in a key, after the two types (RFC 8554, 5.3).
pub const IDENTIFIER_AT: usize = 8;

pub const ROOT_AT: usize = 24;

// Where C and y stand in a signature, after q and the one-time type; and the bytes of the tree type after
// them (RFC 8554, 5.4).
pub const ONE_TIME_AT: usize = 8;

pub const TYPE_SIZE: usize = 4;

// The height of a tree type, if it is listed.
#[tactic(auto, unfolding(crate::specs::Format::height))]
pub fn height_of(number: u32) -> Option<u32>
    ensures { result ≡ rfc.height number }
{
    match number {
        5 => Some(5),
        6 => Some(10),
        7 => Some(15),
        8 => Some(20),
        9 => Some(25),
        _ => None,
    }
}

// The bytes of a one-time signature after its type: C and y[0] to y[p-1] (RFC 8554, 5.4).
pub fn one_time_size(o: Parameters) -> usize
    requires { Listed o }
    ensures { (result ≡ rfc.one_time_bytes o) × (result ≤ one_time_most) }
{
    32 * (o.chains + 1)
}

// Whether the length, the types and the leaf number of a signature are right for a key of known types (RFC
// 8554, 5.4.2, algorithm 6a, step 2).
pub fn signature_formed(o: Parameters, h: u32, key: &[u8], signature: &[u8]) -> bool
    requires { Listed o × (h ≤ height_most) × (length key.now ≡ rfc.key_size) }
    ensures { result ≡ tests.formed o h key.now signature.now }
{
    let end = ONE_TIME_AT + one_time_size(o);
    signature.len() == end + TYPE_SIZE + 32 * (h as usize)
        && words::u32_at(signature, 4) == words::u32_at(key, 4)
        && words::u32_at(signature, end) == words::u32_at(key, 0)
        && words::u32_at(signature, 0) < 1 << h
}
