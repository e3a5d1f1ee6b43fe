// The tree of a key: from a leaf and its path to the root (RFC 8554, 5.4.2, algorithm 6a, step 4).
#![tactic(auto)]

ghost use Rattle.std.specs.Prelude.{◌≡◌, cond, ◌++◌, ◌*◌, ◌/◌, ◌%◌, ◌^◌, ◌≤◌, ◌<◌, eqb, length};
ghost use Rattle.sha256.specs.Sha256.{bytes_of};
ghost use Rattle.lm_hash.specs.Identifier.{identifier};
ghost use Rattle.lm_format.specs.Bounds.{height_most};
ghost use Rattle.lm_tree.specs.Tree as rfc;

use lm_hash::Leaf;
use sha256::State;

// What sets the hash of a leaf apart (RFC 8554, 5.3).
const D_LEAF: u32 = 0x8282;

// What sets the hash of an inner node apart (RFC 8554, 5.3).
const D_INTR: u32 = 0x8383;

// The bytes of two values, one after the other.
fn pair(left: State, right: State) -> [u8; 64]
    ensures { result ≡ bytes_of left ++ bytes_of right }
{
    let mut both = [0u8; 64];
    both[..32].copy_from_slice(&left.bytes());
    both[32..].copy_from_slice(&right.bytes());
    both
}

// The values of a node and its sibling, the left child first: an odd node is the right one.
fn children(node: u32, t: State, sibling: State) -> [u8; 64]
    ensures { result
        ≡ cond (eqb (node % 2) 1) (bytes_of sibling ++ bytes_of t) (bytes_of t ++ bytes_of sibling) }
{
    if node % 2 == 1 {
        return pair(sibling, t);
    }
    pair(t, sibling)
}

// The value of the node above.
fn parent(leaf: Leaf, node: u32, t: State, sibling: State) -> State
    ensures { bytes_of result ≡ rfc.parent (identifier leaf) node (bytes_of t) (bytes_of sibling) }
{
    let both = children(node, t, sibling);
    lm_hash::tagged(leaf, node / 2, D_INTR, &both)
}

// The root's value from that of a node some levels below it.
fn climb(leaf: Leaf, start: u32, value: State, path: &[u8]) -> State
    ensures { bytes_of result
        ≡ rfc.climb (identifier leaf) (length path.now / 32) start (bytes_of value) path.now }
{
    let mut t = value;
    let mut node = start;
    for sibling in path.chunks_exact(32) {
        t = parent(leaf, node, t, lm_hash::value_at(sibling, 0));
        node /= 2;
    }
    t
}

// The root's value from a leaf's number, its candidate key and its path.
pub fn root(leaf: Leaf, h: u32, kc: State, path: &[u8]) -> State
    requires { (h ≤ height_most) × (leaf.q < 2 ^ h) × (length path.now ≡ 32 * h) }
    ensures { bytes_of result ≡ rfc.root (identifier leaf) h leaf.q (bytes_of kc) path.now }
{
    let node = (1 << h) + leaf.q;
    let key = kc.bytes();
    let value = lm_hash::tagged(leaf, node, D_LEAF, &key);
    climb(leaf, node, value, path)
}
