// The replicas that nine rows name (document 01, "The report").
ghost use Rattle.std.specs.Prelude.{◌≡◌, map, ◌<◌};
ghost use Rattle.forensics.specs.Findings.{bit, mask_of};
ghost use Rattle.forensics_charges.specs.Charges.{charge_of};

use forensics_charges::Charge;

// 1 if the replica of a row is named, and 0 if not.
fn bit_of(row: Option<Charge>) -> u16
    ensures { (result ≡ bit (charge_of row)) × (result < 2) }
{
    u16::from(row.is_some())
}

// The named replicas: bit k - 1 is replica k.
pub fn named_mask(rows: [Option<Charge>; forensics::ROW_COUNT]) -> u16
    ensures { result ≡ mask_of (map charge_of rows) }
{
    let mut mask: u16 = 0;
    for row in rows.iter().rev() {
        mask = mask * 2 + bit_of(*row);
    }
    mask
}
