// The audit (document 01, "What stops an audit" and "The report"): the refusal that comes first, or what two
// accepted submissions show.
#![tactic(auto)]

ghost use Rattle.std.specs.Prelude.{◌≡◌, ◌++◌, ◌≤◌, length, drop, Ok, Err, IfOk, IfErr};
ghost use Rattle.refusal.specs.Refusals.{number_of};
ghost use Rattle.forensics.specs.Findings.{found_in};
ghost use Rattle.report.specs.Report.{report_size, report_bytes, audit_number, report_after};
ghost use Rattle.audit_pair.specs.Outcomes as inner;

use log_terms::LogPointers;
use refusal::Refusal;

// What is refused: the roster, or the first or the second submission. The numbers are those of the report.
#[derive(Clone, Copy, PartialEq, Eq)]
pub enum Place {
    Roster = 0,
    First = 1,
    Second = 2,
}

impl Place {
    // Its number.
    pub fn number(self) -> u32
        ensures { result ≡ inner.place self }
    {
        self as u32
    }
}

// A refusal, and of what.
#[derive(Clone, Copy, PartialEq, Eq)]
pub struct Refused {
    pub refusal: Refusal,
    pub place: Place,
}

// What a check gives, with the place beside a refusal.
fn placed<T>(checked: Result<T, Refusal>, place: Place) -> Result<T, Refused>
    ensures accepted { IfOk result (λ x. checked ≡ Ok x) }
    ensures refused { IfErr result (λ r. (checked ≡ Err r.refusal) × (r.place ≡ place)) }
{
    checked.map_err(|refusal| Refused { refusal, place })
}

// The roster first, then the first submission, then the second. Where they are accepted it gives the pointers
// of both submissions.
pub fn validate(
    roster: &[u8],
    first: &[u8],
    second: &[u8],
) -> Result<(LogPointers, LogPointers), Refused>
    ensures outcome { inner.outcome_of result
        ≡ inner.outcome roster.now first.now second.now }
    ensures pointers { IfOk result (inner.PointersBoth roster.now first.now second.now) }
{
    placed(roster_checks::validate(roster), Place::Roster)?;
    let of_first = placed(
        submission_checks::validate_submission(roster, first),
        Place::First,
    )?;
    let of_second = placed(
        submission_checks::validate_submission(roster, second),
        Place::Second,
    )?;
    Ok((of_first, of_second))
}

// Writes the report of the outcome to a buffer that is long enough.
fn write(roster: &[u8], first: &[u8], second: &[u8], report: &mut [u8]) -> Result<(), Refusal>
    requires { report_size ≤ length report.old }
    ensures number { number_of result
        ≡ (inner.answer_of (inner.outcome roster.now first.now second.now)
        (found_in roster.now first.now second.now)).number }
    ensures bytes { report.new
        ≡ report_bytes (inner.answer_of (inner.outcome roster.now first.now
        second.now) (found_in roster.now first.now second.now))
        ++ drop report_size report.old }
{
    match validate(roster, first, second) {
        Ok((one, other)) => {
            let found = forensics_find::find(roster, first, second, one, other);
            report_bytes::write_accepted(report, found);
            Ok(())
        }
        Err(refused) => {
            let number = refused.refusal.number();
            let place = refused.place.number();
            report_bytes::write_refused(report, number, place);
            Err(refused.refusal)
        }
    }
}

// The audit: refused with nothing written where the report buffer is below 53 bytes, otherwise with the
// report in the first 53 bytes.
pub fn audit(roster: &[u8], first: &[u8], second: &[u8], report: &mut [u8]) -> Result<(), Refusal>
    ensures number { number_of result
        ≡ audit_number roster.now first.now second.now
        report.old }
    ensures bytes { report.new
        ≡ report_after roster.now first.now second.now
        report.old }
{
    if report.len() < report::REPORT_SIZE {
        return Err(Refusal::ShortReport);
    }
    write(roster, first, second, report)
}
