// The roster and its masks (document 01, "The roster").
#![tactic(auto)]

ghost use Rattle.std.specs.Prelude.{◌≡◌, ◌+◌, ◌*◌, ◌≤◌, ◌<◌, length};
ghost use Rattle.lm_format.specs.Bounds.{height_most};
ghost use Rattle.lm_format.specs.Format.{height, key_size};
ghost use Rattle.roster.specs.Roster as paper;
ghost use Rattle.roster.specs.Masks as masks;
ghost use Rattle.roster.specs.Sizes.{signature_most};

// The bytes of a cluster's name, and of name and n.
pub const NAME_SIZE: usize = 16;

pub const HEAD_SIZE: usize = 18;

// The bytes of a signature of one-time type 4 before its path: q and the one-time type, C and y, and the tree
// type.
const PATH_AT: usize = lm_format::ONE_TIME_AT
    + 32 * (lm_digits::BYTE_CHAINS + 1)
    + lm_format::TYPE_SIZE;

// The most replicas of a roster (document 01, "The roster").
pub const REPLICAS_MOST: usize = 9;

// The bits of a mask.
pub const MASK_BITS: usize = 16;

// A roster is its bytes, a replica its number from 1 on, and a size or a count of replicas has its bound in
// each contract: types with these as invariants would ask more of callers of `key_of`, `signer`, `quorum`,
// `find` and others, which docs/ names.

// n, of both bytes.
#[tactic(auto, unfolding(crate::specs::Roster::replicas))]
pub fn replicas(roster: &[u8]) -> usize
    requires { paper.head_size ≤ length roster.now }
    ensures { (result ≡ paper.replicas roster.now) × (result < 65536) }
{
    words::u16_at(roster, NAME_SIZE) as usize
}

// The replicas that make a quorum.
#[tactic(auto, unfolding(crate::specs::Roster::quorum))]
pub fn quorum(n: usize) -> u32
    requires { (0 < n) × (n < 65536) }
    ensures { result ≡ paper.quorum n }
{
    (n - (n - 1) / 2) as u32
}

// Whether bit k - 1 of a mask is a one; no bit stands above the sixteenth.
pub fn signer(mask: u16, k: usize) -> bool
    requires { 0 < k }
    ensures { result ≡ masks.signer mask k }
{
    k <= MASK_BITS && (mask >> (k - 1)) % 2 == 1
}

// The key of replica k.
pub fn key_of(roster: &[u8], k: usize) -> &[u8]
    requires { (0 < k) × (paper.head_size + key_size * k ≤ length roster.now) }
    ensures { (result.now ≡ paper.key_of roster.now k) × (length result.now ≡ key_size) }
{
    let start = HEAD_SIZE + lm_format::KEY_SIZE * (k - 1);
    let end = start + lm_format::KEY_SIZE;
    &roster[start..end]
}

// The tree type of replica k's key.
#[tactic(auto, unfolding(crate::specs::Roster::tree_type))]
pub fn tree_type(roster: &[u8], k: usize) -> u32
    requires { (0 < k) × (paper.head_size + key_size * k ≤ length roster.now) }
    ensures { result ≡ paper.tree_type (paper.key_of roster.now k) }
{
    words::u32_at(key_of(roster, k), 0)
}

// The levels of a tree type, 0 for an unknown one, as in the definition.
fn levels(number: u32) -> usize
    ensures { (result ≡ paper.levels (height number)) × (result ≤ height_most) }
{
    lm_format::height_of(number).unwrap_or(0) as usize
}

// S: the bytes of each signature.
pub fn signature_size(roster: &[u8]) -> usize
    requires { paper.head_size + key_size ≤ length roster.now }
    ensures { (result ≡ paper.signature_size roster.now) × (result ≤ signature_most) }
{
    PATH_AT + 32 * levels(tree_type(roster, 1))
}
