// Rule 5 on the uses of a replica's leaves, as a buffer has them (document 02, W5).
ghost use Rattle.std.specs.Prelude.{◌≡◌, ◌*◌, ◌≤◌, length};
ghost use Rattle.forensics.specs.Findings.{leaf_charges, lowest};
ghost use Rattle.submission_leaves.specs.Entries.{entry_size, entry_uses};
ghost use Rattle.forensics_charges.specs.Charges as inner;

use super::{Charge, Rule};
use submission_leaves::ENTRY_SIZE;

// The row of a replica from n uses: the lowest leaf that has two messages.
pub fn leaf_row(buffer: &[u8], n: usize) -> Option<Charge>
    requires { entry_size * n ≤ length buffer.now }
    ensures { inner.charge_of result ≡ lowest (leaf_charges (entry_uses n buffer.now)
        (entry_uses n buffer.now)) }
{
    let mut best = None;
    for i in 0..n {
        let leaf = words::u32_at(buffer, ENTRY_SIZE * i);
        let broken = submission_leaves::leaf_reused(buffer, n, i);
        let row = super::charged(broken, Rule::OneLeaf, leaf as u64);
        best = super::lower_row(best, row);
    }
    best
}
