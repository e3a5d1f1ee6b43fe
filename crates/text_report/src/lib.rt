// The lines that the program prints of a report (document 01, "The report").
#![tactic(auto)]

ghost use Rattle.std.specs.Prelude.{◌≡◌, ◌++◌, ◌+◌, ◌-◌, ◌≤◌, ◌<◌, length, replicate};
ghost use Rattle.text_decimal.specs.Put.{Put};
ghost use Rattle.text_line.specs.Room.{replica_room};
ghost use Rattle.text_report.specs.Lines.{named_line, replica_lines, lines};
ghost use Rattle.forensics.specs.Findings.{row_count};
ghost use Rattle.report.specs.Report.{report_size};
ghost use Rattle.text_report.specs.Room.{replicas_room, lines_room, text_size};

use forensics::ROW_COUNT;
use report::{FORK_AT, MASK_AT, PLACE_AT, REPORT_SIZE, ROW_SIZE, ROW_TERM_AT, ROWS_AT};

// The bytes of a buffer that the lines of every report fit into.
pub const TEXT_SIZE: usize = 512;

// Puts the line of replica k, if a report names it.
fn put_named(out: &mut [u8], at: usize, report: &[u8], k: usize) -> usize
    requires { (length report.now ≡ report_size) × (0 < k) × (k ≤ row_count)
        × (at + replica_room ≤ length out.old) }
    ensures { Put out.old out.new at result
        (named_line report.now k) replica_room }
{
    if !roster::signer(words::u16_at(report, MASK_AT), k) {
        return at;
    }
    let row = ROWS_AT + ROW_SIZE * (k - 1);
    let rule = u32::from(report[row]);
    let term = words::u32_at(report, row + ROW_TERM_AT);
    text_line::put_replica(out, at, k as u32, rule, term)
}

// Puts the lines of the replicas that a report names, 1 to 9.
fn put_replicas(out: &mut [u8], at: usize, report: &[u8]) -> usize
    requires { (length report.now ≡ report_size) × (at + replicas_room ≤ length out.old) }
    ensures { Put out.old out.new at result
        (replica_lines report.now row_count 1) replicas_room }
{
    let mut next = at;
    for k in 1..=ROW_COUNT {
        next = put_named(out, next, report, k);
    }
    next
}

// Puts the lines of a report at the start of a buffer, and gives their length. Not by `write!`: it gives a
// Result, and no contract says that it succeeds, while these lines are always put.
fn put_lines(out: &mut [u8], report: &[u8]) -> usize
    requires { (length report.now ≡ report_size) × (lines_room ≤ length out.old) }
    ensures { Put out.old out.new 0 result (lines report.now) lines_room }
{
    let first = text_line::put_refusal(out, 0, u32::from(report[0]), u32::from(report[PLACE_AT]));
    let second = text_line::put_fork(out, first, words::u32_at(report, FORK_AT));
    put_replicas(out, second, report)
}

// The lines of a report at the start of a buffer, and zeros after them; gives their length.
pub fn text(report: [u8; REPORT_SIZE], out: &mut [u8; TEXT_SIZE]) -> usize
    ensures { (result ≡ length (lines report)) × (result ≤ text_size)
        × (out.new ≡ lines report ++ replicate (text_size - result) 0) }
{
    let mut bytes = [0u8; TEXT_SIZE];
    let count = put_lines(&mut bytes, &report);
    *out = bytes;
    count
}
