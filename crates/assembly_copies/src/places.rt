// Rows of what is taken: a number, the place of a stamp, the places of votes or receipts.
ghost use Rattle.std.specs.Prelude.{◌≡◌, ◌∷◌, ◌+◌, ◌≤◌, length, take};
ghost use Rattle.std.proofs.lemmas.List.Edits.{sets};
ghost use Rattle.roster.specs.Sizes.{replicas_most};
ghost use Rattle.assembly_copies.specs.Rows.{taken_size};

use super::{PLACES_AT, STAMP_AT};
use roster::REPLICAS_MOST;

// Writes a row of what is taken to a place: candidate or commit index, stamp, votes or receipts.
pub fn put_row(table: &mut [usize], at: usize, first: usize, stamp: usize, places: &[usize])
    requires { (at + taken_size ≤ length table.old) × (replicas_most ≤ length places.now) }
    ensures { table.new
        ≡ sets table.old at (first ∷ stamp ∷ take replicas_most places.now) }
{
    table[at] = first;
    table[at + STAMP_AT] = stamp;
    let from = at + PLACES_AT;
    table[from..from + REPLICAS_MOST].copy_from_slice(&places[..REPLICAS_MOST]);
}
