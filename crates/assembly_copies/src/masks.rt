// The signers of a row of places, as a mask.
ghost use Rattle.std.specs.Prelude.{◌≡◌, List, ℕ, ◌≤◌, length};
ghost use Rattle.submission_encoding.specs.Copies.{signers_of};
ghost use Rattle.roster.specs.Sizes.{replicas_most};
ghost use Rattle.assembly_copies.specs.Rows.{copies_at};

// The signers of the first n places: bit k is a one where place k is not 0.
pub fn mask_of(places: &[usize], n: usize) -> u16
    requires { (n ≤ replicas_most) × (n ≤ length places.now) }
    ensures { (S : ℕ) (items : List ℕ) → result ≡ signers_of (copies_at S items n places.now) }
{
    let mut mask = 0;
    for k in (0..n).rev() {
        mask = 2 * mask + u16::from(places[k] != 0);
    }
    mask
}
