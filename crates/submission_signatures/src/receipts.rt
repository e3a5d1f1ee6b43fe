// The receipts of a submission (document 01, "What stops an audit", number 15), over the term's width.
ghost use Rattle.std.specs.Prelude.{◌≡◌, []};
ghost use Rattle.std.proofs.Math.Option.{some};
ghost use Rattle.words.specs.BigEndian.{number_at};
ghost use Rattle.refusal.specs.Checks.{every};
ghost use Rattle.sha256.specs.Sha256.{bytes_of};
ghost use Rattle.log_chain.specs.Log as chain;
ghost use Rattle.submission.specs.View.{receipts_of};
ghost use Rattle.log_chain.specs.Records.{records_of};
ghost use Rattle.submission.specs.Reading.{commit_at, commit_from, commit_of};
ghost use Rattle.submission_signatures.specs.Checked.{Checked};
ghost use Rattle.submission_signatures.specs.Genuine.{genuine_in};

use log_chain::Kind;
use sha256::State;
use submission::{COMMIT_FIELDS_SIZE, COMMIT_SIGNERS_AT, STATEMENT_MOST};
use submission_parts::Shape;

// Whether the receipts of the commit certificate at a place are good, from the pointer of the record that it
// names.
pub fn receipts_good(roster: &[u8], s: &[u8], shape: Shape, at: usize, pointer: State) -> bool
    requires { Checked roster.now shape s.now
        × (at ≡ commit_from shape.width shape.size s.now)
        × (commit_of shape.width shape.size s.now ≡ some (commit_at s.now at))
        × (bytes_of pointer ≡ chain.pointer (chain.with_terms shape.width []) (records_of shape.width
        (number_at 4 s.now at) s.now)) }
    ensures { result
        ≡ every (genuine_in shape.width roster.now)
        (receipts_of shape.size (some (commit_at s.now at)) (records_of shape.width
        shape.records s.now)) }
{
    let index = words::u32_at(s, at);
    let term = log_terms::last_term(s, shape.width, index as usize);
    let mut statement = [0u8; STATEMENT_MOST];
    let end = log_chain::put_place_statement(
        &mut statement,
        Kind::Receipt as u8,
        &roster[..roster::NAME_SIZE],
        shape.width,
        term,
        index,
        pointer,
    );
    submission_slots::certificate_signatures_good(
        roster,
        &statement[..end],
        words::u16_at(s, at + COMMIT_SIGNERS_AT),
        s,
        at + COMMIT_FIELDS_SIZE,
        shape.size,
    )
}
