// The terms of a submission, read from its leader certificates, and the receipts of its commit certificate
// (document 01, "The report"), over the term's width.
ghost use Rattle.std.specs.Prelude.{◌≡◌, true, ◌+◌, ◌≤◌, ◌<◌, length};
ghost use Rattle.words.specs.Widths.{width_most};
ghost use Rattle.submission.specs.Trailer.{trailer_size};
ghost use Rattle.submission.specs.Reading.{view, laid_out};
ghost use Rattle.submission.specs.Validate.{submission_most, within};
ghost use Rattle.submission_parts.specs.Reader.{fields_size, last_pointer_place};
ghost use Rattle.submission_parts.specs.Parts.{Bounds};
ghost use Rattle.forensics_charges.specs.Charges.{receipts};
ghost use Rattle.forensics_find.specs.Tenures as inner;

use forensics_charges::{Receipt, Request, Tenure};
use submission::TERM_AT;

// The last record of the term before a place, with so many leader certificates from there on.
fn end_at(s: &[u8], width: usize, later: usize, next: usize) -> u32
    requires { (trailer_size ≤ length s.now)
        × (0 < later → next + last_pointer_place width ≤ length s.now) }
    ensures { result ≡ inner.end_at width s.now later next }
{
    if later == 0 {
        return submission_trailer::record_count(s) as u32;
    }
    words::u32_at(s, next + TERM_AT + width + width)
}

// The tenure of the leader certificate at a place that ends at another, with so many after it.
pub fn tenure_at(s: &[u8], width: usize, later: usize, at: usize, next: usize) -> Tenure
    requires { (trailer_size ≤ length s.now) × (length s.now ≤ submission_most)
        × (width ≤ width_most) × (at + fields_size width ≤ length s.now)
        × (0 < later → next + last_pointer_place width ≤ length s.now) }
    ensures { result ≡ inner.tenure_at width s.now later at next }
{
    let c = submission_parts::numbers_at(s, at, width);
    let pointer = lm_hash::value_at(
        s,
        at + TERM_AT + width + width + log_chain::INDEX_SIZE,
    ).bytes();
    let end = end_at(s, width, later, next);
    Tenure {
        term: c.term,
        request: Request {
            candidate: c.candidate,
            last_term: c.last_term,
            last_index: c.last_index,
            last_pointer: pointer,
        },
        signers: c.signers,
        end,
    }
}

// The receipts of a submission: the term of the record that its commit certificate names, the index, and the
// signers.
pub fn receipts_of(s: &[u8], width: usize, size: usize) -> Option<Receipt>
    requires { Bounds width size s.now × (laid_out width size s.now ≡ true)
        × (within (view width size s.now).commit (length (view width size s.now).log) ≡ true) }
    ensures { result ≡ receipts (view width size s.now) }
{
    let (c, _) = submission_parts::commit_part(s, width, size)?;
    let term = log_terms::last_term(s, width, c.index as usize);
    Some(Receipt {
        term,
        index: c.index,
        signers: c.signers,
    })
}
