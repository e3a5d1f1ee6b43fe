// Rule 5: the leaves of each replica's signatures in two accepted submissions (document 02, W5), over the
// term's width.
ghost use Rattle.std.specs.Prelude.{◌≡◌, map, ◌-◌, ◌*◌, ◌≤◌, ◌<◌, length};
ghost use Rattle.submission_leaves.specs.Entries.{entry_size};
ghost use Rattle.submission_uses.specs.Signed.{mask_bits};
ghost use Rattle.forensics_charges.specs.Charges as inner;
ghost use Rattle.forensics_find.specs.Leaves.{use_most, Gatherable, leaf_row};

use super::Side;
use forensics_charges::Charge;
use submission_leaves::ENTRY_SIZE;

// The most signatures of a replica in two submissions: in each a vote and a stamp for each of 64 terms, and
// a receipt.
const USE_MOST: usize = 2 * (2 * submission_trailer::LEADER_MOST + 1);

// The row of replica k, by its leaves.
fn replica_row(
    roster: &[u8],
    a: &[u8],
    b: &[u8],
    one: Side,
    other: Side,
    k: usize,
    buffer: &mut [u8],
) -> Option<Charge>
    requires { Gatherable roster.now a.now one × Gatherable roster.now b.now other × (0 < k)
        × (k ≤ mask_bits) × (entry_size * use_most ≤ length buffer.old) }
    ensures { inner.charge_of result
        ≡ leaf_row roster.now a.now b.now one other k }
{
    let first = submission_uses::gather(roster, a, one.shape, one.pointers, k, buffer, 0);
    let both = submission_uses::gather(roster, b, other.shape, other.pointers, k, buffer, first);
    forensics_charges::leaves::leaf_row(buffer, both)
}

// The rows, each with what its replica's leaves give.
pub fn leaf_rows(
    roster: &[u8],
    a: &[u8],
    b: &[u8],
    one: Side,
    other: Side,
    rows: [Option<Charge>; forensics::ROW_COUNT],
) -> [Option<Charge>; forensics::ROW_COUNT]
    requires { Gatherable roster.now a.now one × Gatherable roster.now b.now other }
    ensures { map inner.charge_of result
        ≡ inner.rows_by (λ k. inner.least (inner.row_at rows k) (leaf_row roster.now
        a.now b.now one other k)) 9 1 }
{
    let mut buffer = [0u8; ENTRY_SIZE * USE_MOST];
    let mut out = [None; forensics::ROW_COUNT];
    for (i, row) in rows.iter().enumerate() {
        let leaves = replica_row(roster, a, b, one, other, i + 1, &mut buffer);
        out[i] = forensics_charges::lower_row(*row, leaves);
    }
    out
}
