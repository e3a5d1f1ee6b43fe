// Uses of leaves in a lent buffer, one entry after the other: the leaf's number, the length of its message,
// and the message with zeros after it (document 02, W5).
#![tactic(auto)]

ghost use Rattle.std.specs.Prelude.{◌≡◌, [], ◌∷◌, ◌++◌, ◌+◌, ◌*◌, ◌≤◌, ◌<◌, length, take, drop};
ghost use Rattle.lm_format.specs.Uses.{use_of, reused};
ghost use Rattle.submission.specs.Sizes.{statement_most};
ghost use Rattle.submission_leaves.specs.Entries.{entry_size, entry_use, entry_uses, entry_use_at, reused_in};

use submission::STATEMENT_MOST;

// The bytes of a leaf's number, and of an entry of the buffer: leaf, length of the message, message.
pub const LEAF_SIZE: usize = 4;

pub const ENTRY_SIZE: usize = LEAF_SIZE + 1 + STATEMENT_MOST;

// Puts an entry after n others: a leaf, and a statement of so many bytes with zeros after it. The buffer is
// lent, its count beside it: no heap is a rule of the project, and docs/ names `gather`, which takes both.
pub fn add_use(buffer: &mut [u8], n: usize, leaf: u32, size: usize, statement: &[u8]) -> usize
    requires { (length statement.now ≡ statement_most) × (size ≤ statement_most)
        × (entry_size * (n + 1) ≤ length buffer.old) }
    ensures count { result ≡ n + 1 }
    ensures uses { entry_uses result buffer.new
        ≡ entry_uses n buffer.old ++ (use_of leaf (size ∷ statement.now) ∷ []) }
{
    let at = ENTRY_SIZE * n;
    words::put_u32(buffer, at, leaf);
    buffer[at + LEAF_SIZE] = size as u8;
    words::put_bytes(buffer, at + LEAF_SIZE + 1, statement);
    n + 1
}

// Whether two entries, at places, have one leaf and different messages.
fn entries_reused(buffer: &[u8], one: usize, other: usize) -> bool
    requires { (one + entry_size ≤ length buffer.now) × (other + entry_size ≤ length buffer.now) }
    ensures { result ≡ reused (entry_use (take entry_size (drop one buffer.now)))
        (entry_use (take entry_size (drop other buffer.now))) }
{
    if words::u32_at(buffer, one) != words::u32_at(buffer, other) {
        return false;
    }
    buffer[one + LEAF_SIZE..one + ENTRY_SIZE] != buffer[other + LEAF_SIZE..other + ENTRY_SIZE]
}

// Whether the leaf of entry i is that of another of n entries, with a different message.
pub fn leaf_reused(buffer: &[u8], n: usize, i: usize) -> bool
    requires { (i < n) × (entry_size * n ≤ length buffer.now) }
    ensures { result ≡ reused_in (entry_use_at i buffer.now) (entry_uses n buffer.now) }
{
    let one = ENTRY_SIZE * i;
    (0..n).any(|j| entries_reused(buffer, one, ENTRY_SIZE * j))
}
