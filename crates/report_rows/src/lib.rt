// The rows of the report, written (document 01, "The report").
#![tactic(auto)]

ghost use Rattle.std.specs.Prelude.{◌≡◌, ◌+◌, ◌≤◌, length};
ghost use mathlib.Core.List.{map, flat_map};
ghost use Rattle.std.proofs.lemmas.List.Edits.{sets};
ghost use Rattle.forensics_charges.specs.Charges.{charge_of};
ghost use Rattle.report.specs.Report.{report_size, row_bytes};
ghost use Rattle.report.specs.Places.{rows_place, row_size};

use forensics_charges::Charge;
use report::{ROW_SIZE, ROW_TERM_AT, ROW_TERM_SIZE, ROWS_AT};

pub mod mask;

// Writes a row at a place: zeros if its replica is not named.
fn put_row(out: &mut [u8], at: usize, row: Option<Charge>)
    requires { at + row_size ≤ length out.old }
    ensures { out.new ≡ sets out.old at (row_bytes (charge_of row)) }
{
    let (rule, term) = row.map_or((0, 0), |charge| (charge.rule, charge.term));
    words::put_u8(out, at, rule as u32);
    words::put_number(out, at + ROW_TERM_AT, ROW_TERM_SIZE, term);
}

// Writes nine rows, one after the other.
pub fn put_rows(out: &mut [u8], rows: [Option<Charge>; forensics::ROW_COUNT])
    requires { report_size ≤ length out.old }
    ensures { out.new
        ≡ sets out.old rows_place (flat_map row_bytes (map charge_of rows)) }
{
    for (i, row) in rows.iter().enumerate() {
        put_row(out, ROWS_AT + ROW_SIZE * i, *row);
    }
}
