// A submission, read from its trailer, and its checks (document 01, "A submission, read from its trailer" and
// "What stops an audit", numbers 5 to 15), and the use of a leaf that a signature is (document 02, W5):
// definitions and laws, and the places of the fields of its certificates, over the term's width.
#![tactic(auto)]

ghost use Rattle.std.specs.Prelude.{◌≡◌, ◌≤◌};
ghost use Rattle.words.specs.Widths.{width_most};
ghost use Rattle.submission.specs.Reading.{ballot_size};
ghost use Rattle.submission.specs.Sizes.{ballot_most};

// Where a term stands among a vote's fields, after the candidate; last term, last index and last pointer
// follow it.
pub const TERM_AT: usize = 2;

// The bytes of the signers, after a vote's fields.
pub const SIGNERS_SIZE: usize = 2;

// The most bytes of a statement: kind, cluster name, and a vote's fields with terms of eight bytes.
pub const STATEMENT_MOST: usize = log_chain::NAME_AT
    + roster::NAME_SIZE
    + TERM_AT
    + 2 * words::WIDTH_MOST
    + log_chain::INDEX_SIZE
    + log_chain::POINTER_SIZE;

// Where the signers of a commit certificate stand, and the bytes before its signatures.
pub const COMMIT_SIGNERS_AT: usize = 4;

pub const COMMIT_FIELDS_SIZE: usize = 6;

// The bytes of a vote's fields: candidate, term, last term, last index, last pointer.
pub fn ballot_size(width: usize) -> usize
    requires { width ≤ width_most }
    ensures { (result ≡ ballot_size width) × (result ≤ ballot_most) }
{
    TERM_AT + width + width + log_chain::INDEX_SIZE + log_chain::POINTER_SIZE
}
