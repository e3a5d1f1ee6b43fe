// The report's bytes, written (document 01, "The report"): number, where, fork index, named replicas, and
// nine rows.
#![tactic(auto)]

ghost use Rattle.std.specs.Prelude.{◌≡◌, ◌++◌, ◌≤◌, length, drop};
ghost use Rattle.std.proofs.lemmas.List.Edits.{sets};
ghost use Rattle.words.specs.BigEndian.{be};
ghost use Rattle.report.specs.Report.{refused, report_size, report_bytes};
ghost use Rattle.report.specs.Places.{rows_place};
ghost use Rattle.report_bytes.specs.Answers.{answered, accepted};

use forensics_charges::{Charge, Findings};
use report::{FORK_AT, MASK_AT, PLACE_AT};

// Writes what stands before the rows: number, where, fork index and named replicas.
fn put_head(out: &mut [u8], number: u32, place: u32, fork: u32, mask: u16)
    requires { rows_place ≤ length out.old }
    ensures { out.new
        ≡ sets out.old 0 (be 1 number ++ be 1 place ++ be 4 fork ++ be 2 mask) }
{
    words::put_u8(out, 0, number);
    words::put_u8(out, PLACE_AT, place);
    words::put_u32(out, FORK_AT, fork);
    words::put_u16(out, MASK_AT, mask);
}

// Writes a report: number, where, fork index and rows.
fn put_report(
    out: &mut [u8],
    number: u32,
    place: u32,
    fork: u32,
    rows: [Option<Charge>; forensics::ROW_COUNT],
)
    requires { report_size ≤ length out.old }
    ensures { out.new
        ≡ report_bytes (answered number place fork rows) ++ drop report_size out.old }
{
    put_head(
        out,
        number,
        place,
        fork,
        report_rows::mask::named_mask(rows),
    );
    report_rows::put_rows(out, rows);
}

// Writes the report of two accepted submissions to the buffer's first bytes, keeps the rest, and gives the
// number.
pub fn write_accepted(report: &mut [u8], findings: Findings) -> u32
    requires { report_size ≤ length report.old }
    ensures number { result ≡ (accepted findings).number }
    ensures bytes { report.new
        ≡ report_bytes (accepted findings) ++ drop report_size report.old }
{
    put_report(report, 0, 0, findings.fork.unwrap_or(0), findings.rows);
    0
}

// Writes the report of a refusal to the buffer's first bytes, keeps the rest, and gives the number. Number
// and place are integers, since docs/ names this function, and enums would ask more.
pub fn write_refused(report: &mut [u8], number: u32, place: u32) -> u32
    requires { report_size ≤ length report.old }
    ensures number { result ≡ (refused number place).number }
    ensures bytes { report.new
        ≡ report_bytes (refused number place) ++ drop report_size report.old }
{
    put_report(report, number, place, 0, [None; forensics::ROW_COUNT]);
    number
}
