// A replica's receipt in a submission, over the term's width.
ghost use Rattle.std.specs.Prelude.{◌≡◌, [], ◌++◌, map, ◌+◌, ◌*◌, ◌≤◌, ◌<◌, length};
ghost use Rattle.std.proofs.Math.Option.{some};
ghost use Rattle.words.specs.BigEndian.{number_at};
ghost use Rattle.sha256.specs.Sha256.{bytes_of};
ghost use Rattle.log_chain.specs.Log as chain;
ghost use Rattle.log_chain.specs.Records.{records_of};
ghost use Rattle.submission.specs.View.{receipts_of};
ghost use Rattle.submission.specs.Reading.{commit_at, commit_from, commit_of};
ghost use Rattle.submission.specs.Validate.{uses};
ghost use Rattle.submission_signatures.specs.Checked.{Checked};
ghost use Rattle.lm_format.specs.Leaf.{leaf_size};
ghost use Rattle.submission_leaves.specs.Entries.{entry_size, padded_use, entry_uses};
ghost use Rattle.submission_uses.specs.Signed.{mask_bits, slot_use_in};

use log_chain::Kind;
use sha256::State;
use submission::{COMMIT_FIELDS_SIZE, COMMIT_SIGNERS_AT, STATEMENT_MOST};
use submission_parts::Shape;

// Puts replica k's receipt of the commit certificate at a place, where it is a signer, from the pointer of
// the record that it names.
pub fn add_receipt(
    roster: &[u8],
    s: &[u8],
    shape: Shape,
    at: usize,
    pointer: State,
    k: usize,
    buffer: &mut [u8],
    n: usize,
) -> usize
    requires { Checked roster.now shape s.now × (leaf_size ≤ shape.size)
        × (at ≡ commit_from shape.width shape.size s.now)
        × (commit_of shape.width shape.size s.now ≡ some (commit_at s.now at))
        × (bytes_of pointer ≡ chain.pointer (chain.with_terms shape.width []) (records_of shape.width
        (number_at 4 s.now at) s.now))
        × (0 < k) × (k ≤ mask_bits) × (entry_size * (n + 1) ≤ length buffer.old) }
    ensures few { result ≤ n + 1 }
    ensures uses { entry_uses result buffer.new ≡ entry_uses n buffer.old
        ++ map padded_use (uses (slot_use_in shape.width roster.now) k
        (receipts_of shape.size (some (commit_at s.now at)) (records_of shape.width
        shape.records s.now))) }
{
    let mask = words::u16_at(s, at + COMMIT_SIGNERS_AT);
    if !roster::signer(mask, k) {
        return n;
    }
    let place = super::signature_place(mask, k, shape.size, at + COMMIT_FIELDS_SIZE);
    let leaf = words::u32_at(s, place);
    let index = words::u32_at(s, at);
    let term = log_terms::last_term(s, shape.width, index as usize);
    let mut statement = [0u8; STATEMENT_MOST];
    let length = log_chain::put_place_statement(
        &mut statement,
        Kind::Receipt as u8,
        &roster[..roster::NAME_SIZE],
        shape.width,
        term,
        index,
        pointer,
    );
    submission_leaves::add_use(buffer, n, leaf, length, &statement)
}
