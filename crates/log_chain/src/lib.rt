// Records, chain strings, pointers and statements (document 01, "Chain and statements"), over the term's
// width.
#![tactic(auto)]

ghost use Rattle.std.specs.Prelude.{◌≡◌, ◌∷◌, ◌++◌, ◌+◌, ◌≤◌, length, take};
ghost use Rattle.words.specs.BigEndian.{be};
ghost use Rattle.words.specs.Over.{over};
ghost use Rattle.words.specs.Widths.{width_most};
ghost use Rattle.sha256.specs.Sha256.{bytes_of, sha256};
ghost use Rattle.log_chain.specs.Kinds.{KindOf};
ghost use Rattle.log_chain.specs.Records.{record_size};
ghost use Rattle.log_chain.specs.Sizes.{record_size_most, place_statement, place_size};

use sha256::State;

// The bytes of an index, of a payload digest and of a pointer (document 01, "Chain and statements").
pub const INDEX_SIZE: usize = 4;

const DIGEST_SIZE: usize = 32;

pub const POINTER_SIZE: usize = 32;

// The most bytes of a chain string before the pointer: index and record.
const CHAIN_HEAD_MOST: usize = INDEX_SIZE + words::WIDTH_MOST + DIGEST_SIZE;

// What a statement is; as a number, its kind byte.
#[derive(Clone, Copy, PartialEq, Eq)]
pub enum Kind {
    Stamp = 1,
    Receipt = 2,
    Vote = 3,
}

// A byte that is no kind's.
#[derive(Clone, Copy, PartialEq, Eq)]
pub struct UnknownKind {
    pub byte: u8,
}

impl TryFrom<u8> for Kind {
    type Error = UnknownKind;

    ghost try_from_gives = { KindOf };

    fn try_from(byte: u8) -> Result<Kind, UnknownKind> {
        match byte {
            1 => Ok(Kind::Stamp),
            2 => Ok(Kind::Receipt),
            3 => Ok(Kind::Vote),
            _ => Err(UnknownKind { byte }),
        }
    }
}

// Where the cluster's name stands in a statement, after the kind.
pub const NAME_AT: usize = 1;

// The bytes of a record: term and payload digest.
pub fn record_size(width: usize) -> usize
    requires { width ≤ width_most }
    ensures { (result ≡ record_size width) × (result ≤ record_size_most) }
{
    width + DIGEST_SIZE
}

// The index and the record, with which a chain string begins; zeros after a shorter record.
fn head(index: u32, fields: &[u8]) -> [u8; CHAIN_HEAD_MOST]
    requires { length fields.now ≤ record_size_most }
    ensures { take (4 + length fields.now) result ≡ be 4 index ++ fields.now }
{
    let mut h = [0u8; CHAIN_HEAD_MOST];
    words::put_u32(&mut h, 0, index);
    words::put_bytes(&mut h, INDEX_SIZE, fields);
    h
}

// The pointer of the record with an index, from its bytes (term and payload digest) and the pointer before.
pub fn next_pointer(index: u32, fields: &[u8], before: State) -> State
    requires { length fields.now ≤ record_size_most }
    ensures { bytes_of result ≡ sha256 (be 4 index ++ fields.now ++ bytes_of before) }
{
    let h = head(index, fields);
    let end = INDEX_SIZE + fields.len();
    let p = before.bytes();
    lm_hash::message::joined(&h[..end], &p)
}

// Writes a stamp or a receipt to the start of a buffer, and gives the number of its bytes: kind, cluster
// name, term, index, pointer. Here and below the kind is any byte, and no `Kind`, which would ask more: docs/
// names both functions.
pub fn put_place_statement(
    out: &mut [u8],
    kind: u8,
    name: &[u8],
    width: usize,
    term: u64,
    index: u32,
    pointer: State,
) -> usize
    requires { (width ≤ width_most) × (place_size (length name.now) width ≤ length out.old) }
    ensures size { result
        ≡ length (place_statement kind name.now width term index (bytes_of pointer)) }
    ensures bytes { out.new
        ≡ over (place_statement kind name.now width term index (bytes_of pointer))
        out.old }
{
    let fields = NAME_AT + name.len();
    out[0] = kind;
    words::put_bytes(out, NAME_AT, name);
    words::put_number(out, fields, width, term);
    words::put_u32(out, fields + width, index);
    lm_hash::put_value(out, fields + width + INDEX_SIZE, pointer);
    fields + width + INDEX_SIZE + POINTER_SIZE
}

// Writes a vote to the start of a buffer, and gives the number of its bytes: kind, cluster name, the bytes of
// its fields.
pub fn put_vote_statement(out: &mut [u8], kind: u8, name: &[u8], fields: &[u8]) -> usize
    requires { 1 + length name.now + length fields.now ≤ length out.old }
    ensures size { result ≡ length (kind ∷ name.now ++ fields.now) }
    ensures bytes { out.new
        ≡ over (kind ∷ name.now ++ fields.now) out.old }
{
    let at = NAME_AT + name.len();
    out[0] = kind;
    words::put_bytes(out, NAME_AT, name);
    words::put_bytes(out, at, fields);
    at + fields.len()
}
