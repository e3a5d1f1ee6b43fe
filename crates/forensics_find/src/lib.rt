// The fork index and the rows of two accepted submissions (document 01, "The report"). The term's width is
// fixed here, by the version, and free below.
#![tactic(auto)]

ghost use Rattle.std.specs.Prelude.{◌≡◌, true, length, unwrap_or, IfSome, ◌<◌};
ghost use Rattle.roster.specs.Roster.{roster_number};
ghost use Rattle.log_terms.specs.Pointed.{PointersOf};
ghost use Rattle.submission.specs.View.{committed};
ghost use Rattle.submission.specs.Reading.{view, laid_out};
ghost use Rattle.submission.specs.Validate.{within, form_of, view_of, validate};
ghost use Rattle.forensics.specs.Findings as forensics;
ghost use Rattle.submission_parts.specs.Parts.{Bounds};
ghost use Rattle.forensics_charges.specs.Charges as inner;
ghost use Rattle.forensics_find.specs.Read.{read};

use forensics_charges::{Findings, Receipt};
use log_terms::LogPointers;
use submission_parts::Shape;

pub mod leaves;
pub mod rows;
pub mod tenures;

// What is known of an accepted submission: its shape, and the pointers of its committed records and of its
// log.
#[derive(Clone, Copy)]
pub struct Side {
    pub shape: Shape,
    pub pointers: LogPointers,
}

// The fork index: the first difference of the logs, where both have committed it.
fn fork(difference: Option<usize>, first: Option<Receipt>, second: Option<Receipt>) -> Option<u32>
    ensures index { unwrap_or result 0 ≡ inner.fork_of difference first second }
    ensures from_one { IfSome difference (λ index. 0 < index) → IfSome result (λ index. 0 < index) }
{
    let index = difference?;
    let first = first?;
    let second = second?;
    if index <= first.index as usize && index <= second.index as usize {
        Some(index as u32)
    } else {
        None
    }
}

// The fork index and the rows of two laid-out submissions, by rules 1 to 4.
fn found(a: &[u8], b: &[u8], width: usize, size: usize) -> Findings
    requires { Bounds width size a.now × (laid_out width size a.now ≡ true)
        × (within (view width size a.now).commit (length (view width size a.now).log) ≡ true)
        × Bounds width size b.now × (laid_out width size b.now ≡ true)
        × (within (view width size b.now).commit (length (view width size b.now).log) ≡ true) }
    ensures findings { inner.findings_of result ≡ read width size a.now b.now }
    ensures fork { IfSome result.fork (λ index. 0 < index) }
{
    let difference = log_difference::difference(
        a,
        b,
        width,
        submission_trailer::record_count(a),
        submission_trailer::record_count(b),
    );
    let first = tenures::receipts_of(a, width, size);
    let second = tenures::receipts_of(b, width, size);
    Findings {
        fork: fork(difference, first, second),
        rows: rows::rows(difference, a, b, first, second, width, size),
    }
}

// The fork index and the rows of two submissions that a roster accepts, with the pointers that validation
// gave: rules 1 to 4 from their terms and receipts, rule 5 from their leaves.
pub fn find(roster: &[u8], a: &[u8], b: &[u8], first: LogPointers, second: LogPointers) -> Findings
    requires { (roster_number roster.now ≡ 0) × (validate roster.now a.now ≡ 0)
        × (validate roster.now b.now ≡ 0)
        × PointersOf (form_of roster.now) (committed (view_of roster.now a.now)) (view_of roster.now
        a.now).log first
        × PointersOf (form_of roster.now) (committed (view_of roster.now b.now)) (view_of roster.now
        b.now).log second }
    ensures findings { inner.findings_of result
        ≡ forensics.found_in roster.now a.now b.now }
    ensures fork { IfSome result.fork (λ index. 0 < index) }
{
    let size = roster::signature_size(roster);
    let ruled = found(a, b, submission_trailer::TERM_SIZE, size);
    let one = Side {
        shape: submission_parts::layout::shape_of(a, submission_trailer::TERM_SIZE, size),
        pointers: first,
    };
    let other = Side {
        shape: submission_parts::layout::shape_of(b, submission_trailer::TERM_SIZE, size),
        pointers: second,
    };
    let fork = ruled.fork;
    let four = ruled.rows;
    let rows = leaves::leaf_rows(roster, a, b, one, other, four);
    Findings { fork, rows }
}
