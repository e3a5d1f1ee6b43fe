// The program `audit` (document 01, "The report"): reads the files `roster`, `first` and `second` of the
// current folder, and prints the lines of the report.
#![tactic(auto)]

ghost use Rattle.std.specs.Prelude.{◌≡◌, ◌≤◌, length, take, replicate};
ghost use Rattle.report.specs.Report.{report_size, report_after};
ghost use Rattle.text_report.specs.Lines.{lines};

use std::rt::Files;

// Puts the lines of the report of three inputs at the start of `out`, and gives their length.
fn report_lines(
    roster: &[u8],
    first: &[u8],
    second: &[u8],
    out: &mut [u8; text_report::TEXT_SIZE],
) -> usize
    ensures within { result ≤ length out.new }
    ensures taken { result ≡ length (take result out.new) }
    ensures text { take result out.new
        ≡ lines (report_after roster.now first.now second.now
        (replicate report_size 0)) }
{
    let mut report = [0u8; report::REPORT_SIZE];
    let _ = audit_pair::audit(roster, first, second, &mut report);
    text_report::text(report, out)
}

// Puts a file at the start of `buffer`, and gives its length. What cannot be read whole is read as no bytes:
// number 2 of a roster, and number 5 of a submission.
fn load(files: &impl Files, name: &[u8], buffer: &mut [u8]) -> usize
    ensures within { result ≤ length buffer.new }
    ensures taken { result ≡ length (take result buffer.new) }
{
    program_files::load(files, name, buffer).unwrap_or(0)
}

// Prints the lines of the report of three inputs. That they cannot be written changes nothing: who looks for
// them sees that they are not there.
fn print(rt: &impl Print, roster: &[u8], first: &[u8], second: &[u8]) {
    let mut out = [0u8; text_report::TEXT_SIZE];
    let n = report_lines(roster, first, second, &mut out);
    let _ = rt.write_all(&out[..n]);
}

fn main(rt: HostRuntime) {
    let mut roster = [0u8; 1024];
    let mut first = [0u8; 28672];
    let mut second = [0u8; 28672];
    let r = load(&rt, b"roster", &mut roster);
    let a = load(&rt, b"first", &mut first);
    let b = load(&rt, b"second", &mut second);
    print(&rt, &roster[..r], &first[..a], &second[..b]);
}
