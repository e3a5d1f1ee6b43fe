// The hashes of RFC 8554 (4.3, 4.5, 4.6 and 5.3), each of the form H(I || u32str(q) || u16str(d) || rest).
#![tactic(auto)]

ghost use Rattle.std.specs.Prelude.{◌≡◌, ◌++◌, ◌+◌, ◌≤◌, ◌<◌, length, take, drop};
ghost use Rattle.std.proofs.lemmas.List.Edits.{sets};
ghost use Rattle.words.specs.BigEndian.{be};
ghost use Rattle.sha256.specs.Service.{limit};
ghost use Rattle.sha256.specs.Sha256.{bytes_of};
ghost use Rattle.lm_hash.specs.Identifier.{identifier, prefix_size};
ghost use Rattle.lm_hash.specs.Tagged as rfc;

pub mod message;

use sha256::State;

// The bytes of I, q and d, with which every hash begins; and of these and the salt C after them.
const HEAD_SIZE: usize = 16 + 4 + 2;

const SALTED_SIZE: usize = HEAD_SIZE + 32;

// One leaf of a key: the key's identifier I as four words, and the leaf's number q.
#[derive(Clone, Copy)]
pub struct Leaf {
    pub i0: u32,
    pub i1: u32,
    pub i2: u32,
    pub i3: u32,
    pub q: u32,
}

// The hash value that stands in the 32 bytes at a place.
pub fn value_at(s: &[u8], at: usize) -> State
    requires { at + 32 ≤ length s.now }
    ensures { bytes_of result ≡ take 32 (drop at s.now) }
{
    State {
        a: words::u32_at(s, at),
        b: words::u32_at(s, at + 4),
        c: words::u32_at(s, at + 8),
        d: words::u32_at(s, at + 12),
        e: words::u32_at(s, at + 16),
        f: words::u32_at(s, at + 20),
        g: words::u32_at(s, at + 24),
        h: words::u32_at(s, at + 28),
    }
}

// The leaf with a number, of the key whose identifier stands in the 16 bytes at a place.
pub fn leaf_at(s: &[u8], at: usize, q: u32) -> Leaf
    requires { at + 16 ≤ length s.now }
    ensures { (identifier result ≡ take 16 (drop at s.now)) × (result.q ≡ q) }
{
    Leaf {
        i0: words::u32_at(s, at),
        i1: words::u32_at(s, at + 4),
        i2: words::u32_at(s, at + 8),
        i3: words::u32_at(s, at + 12),
        q,
    }
}

// The 22 bytes I, q, d that every hash begins with, and ten zeros.
fn head(leaf: Leaf, q: u32, d: u32) -> [u8; 32]
    requires { d < 65536 }
    ensures { take prefix_size result ≡ identifier leaf ++ be 4 q ++ be 2 d }
{
    State {
        a: leaf.i0,
        b: leaf.i1,
        c: leaf.i2,
        d: leaf.i3,
        e: q,
        f: d * 65536,
        g: 0,
        h: 0,
    }
    .bytes()
}

// H(I || u32str(q) || u16str(d) || rest).
pub fn tagged(leaf: Leaf, q: u32, d: u32, rest: &[u8]) -> State
    requires { (d < 65536) × (length rest.now ≤ limit) }
    ensures { bytes_of result ≡ rfc.tagged (identifier leaf) q d rest.now }
{
    let bytes = head(leaf, q, d);
    message::joined(&bytes[..HEAD_SIZE], rest)
}

// H(I || u32str(q) || u16str(d) || salt || message), with no copy of the message.
pub fn tagged_message(leaf: Leaf, q: u32, d: u32, salt: &[u8], message: &[u8]) -> State
    requires { (d < 65536) × (length salt.now ≡ 32) × (length message.now ≤ limit) }
    ensures { bytes_of result
        ≡ rfc.tagged (identifier leaf) q d (salt.now ++ message.now) }
{
    let bytes = head(leaf, q, d);
    let block = message::first_block(&bytes[..HEAD_SIZE], salt);
    message::joined(&block[..SALTED_SIZE], message)
}

// Writes a hash value to the 32 bytes at a place.
pub fn put_value(out: &mut [u8], at: usize, v: State)
    requires { at + 32 ≤ length out.old }
    ensures { out.new ≡ sets out.old at (bytes_of v) }
{
    let bytes = v.bytes();
    words::put_bytes(out, at, &bytes);
}
