// A replica's signatures in a submission, in the order of its layout: the leaf of each and its message, put
// one after the other into a lent buffer (document 02, W5), over the term's width.
#![tactic(auto)]

ghost use Rattle.std.specs.Prelude.{◌≡◌, ◌++◌, map, ◌+◌, ◌*◌, ◌≤◌, ◌<◌, length};
ghost use Rattle.submission.specs.View.{slots};
ghost use Rattle.roster.specs.Sizes.{signature_most};
ghost use Rattle.submission.specs.Validate.{uses, submission_most};
ghost use Rattle.submission_parts.specs.Shapes.{view_in};
ghost use Rattle.submission_signatures.specs.Checked.{Checked, PointersIn};
ghost use Rattle.lm_format.specs.Leaf.{leaf_size};
ghost use Rattle.submission_leaves.specs.Entries.{entry_size, padded_use, entry_uses};
ghost use Rattle.submission_uses.specs.Signed as inner;

use log_terms::LogPointers;
use submission_parts::Shape;

pub mod receipts;
pub mod stamps;
pub mod votes;

// The place of replica k's signature among those of a mask's replicas, from a place on.
pub fn signature_place(mask: u16, k: usize, size: usize, from: usize) -> usize
    requires { (0 < k) × (k ≤ inner.mask_bits) × (size ≤ signature_most) × (from ≤ submission_most) }
    ensures { result ≡ inner.signature_place mask k size from }
{
    let later = u16::count_ones(mask >> (k - 1));
    from + size * ((u16::count_ones(mask) - later) as usize)
}

// Puts the uses that replica k's signatures are after n others: votes, stamps, receipt. The last stamp stands
// on the log's pointer, the receipt on that of the committed records.
pub fn gather(
    roster: &[u8],
    s: &[u8],
    shape: Shape,
    pointers: LogPointers,
    k: usize,
    buffer: &mut [u8],
    n: usize,
) -> usize
    requires { Checked roster.now shape s.now × PointersIn shape s.now pointers
        × (0 < k) × (k ≤ inner.mask_bits) × (leaf_size ≤ shape.size)
        × (entry_size * (n + (shape.leaders + shape.leaders + 1)) ≤ length buffer.old) }
    ensures few { result ≤ n + (shape.leaders + shape.leaders + 1) }
    ensures uses { entry_uses result buffer.new ≡ entry_uses n buffer.old
        ++ map padded_use (uses (inner.slot_use_in shape.width roster.now) k
        (slots shape.size (view_in shape s.now))) }
{
    let voted = votes::add_votes(roster, s, shape, k, buffer, n);
    let stamped = stamps::add_stamps(roster, s, shape, pointers.last, k, buffer, voted);
    let Some((_, at)) = submission_parts::commit_part(s, shape.width, shape.size) else {
        return stamped;
    };
    receipts::add_receipt(roster, s, shape, at, pointers.committed, k, buffer, stamped)
}
