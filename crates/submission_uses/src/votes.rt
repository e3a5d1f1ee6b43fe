// A replica's votes in a submission, over the term's width.
ghost use Rattle.std.specs.Prelude.{◌≡◌, ◌+◌, ◌*◌, ◌≤◌, ◌<◌, length};
ghost use mathlib.Core.List.{◌++◌, map, flat_map};
ghost use Rattle.words.specs.Widths.{width_most};
ghost use Rattle.roster.specs.Roster.{roster_number};
ghost use Rattle.roster.specs.Sizes.{signature_most};
ghost use Rattle.submission.specs.Reading.{certificate_at, certificate_end};
ghost use Rattle.submission.specs.Validate.{uses, submission_most};
ghost use Rattle.submission_parts.specs.Shapes.{view_in};
ghost use Rattle.submission_signatures.specs.Votes.{ballots};
ghost use Rattle.submission_signatures.specs.Checked.{Checked};
ghost use Rattle.lm_format.specs.Leaf.{leaf_size};
ghost use Rattle.submission_leaves.specs.Entries.{entry_size, padded_use, entry_uses};
ghost use Rattle.submission_uses.specs.Signed.{mask_bits, slot_use_in};

use log_chain::Kind;
use submission::{SIGNERS_SIZE, STATEMENT_MOST};
use submission_parts::Shape;

// Puts replica k's vote of the leader certificate at a place, where it is a signer.
fn add_vote(
    roster: &[u8],
    s: &[u8],
    width: usize,
    size: usize,
    at: usize,
    k: usize,
    buffer: &mut [u8],
    n: usize,
) -> usize
    requires { (roster_number roster.now ≡ 0) × (width ≤ width_most) × (leaf_size ≤ size)
        × (size ≤ signature_most)
        × (certificate_end width size s.now at ≤ length s.now) × (length s.now ≤ submission_most)
        × (0 < k) × (k ≤ mask_bits) × (entry_size * (n + 1) ≤ length buffer.old) }
    ensures few { result ≤ n + 1 }
    ensures uses { entry_uses result buffer.new ≡ entry_uses n buffer.old
        ++ map padded_use (uses (slot_use_in width roster.now) k
        (ballots size (certificate_at width s.now at))) }
{
    let end = at + submission::ballot_size(width);
    let mask = words::u16_at(s, end);
    if !roster::signer(mask, k) {
        return n;
    }
    let place = super::signature_place(mask, k, size, end + SIGNERS_SIZE);
    let leaf = words::u32_at(s, place);
    let mut statement = [0u8; STATEMENT_MOST];
    let length = log_chain::put_vote_statement(
        &mut statement,
        Kind::Vote as u8,
        &roster[..roster::NAME_SIZE],
        &s[at..end],
    );
    submission_leaves::add_use(buffer, n, leaf, length, &statement)
}

// Puts replica k's votes of the leader certificates.
pub fn add_votes(
    roster: &[u8],
    s: &[u8],
    shape: Shape,
    k: usize,
    buffer: &mut [u8],
    n: usize,
) -> usize
    requires { Checked roster.now shape s.now × (0 < k) × (k ≤ mask_bits) × (leaf_size ≤ shape.size)
        × (entry_size * (n + shape.leaders) ≤ length buffer.old) }
    ensures few { result ≤ n + shape.leaders }
    ensures uses { entry_uses result buffer.new ≡ entry_uses n buffer.old
        ++ map padded_use (uses (slot_use_in shape.width roster.now) k
        (flat_map (ballots shape.size) (view_in shape s.now).leaders)) }
{
    let mut at = shape.from;
    let mut count = n;
    for _ in 0..shape.leaders {
        count = add_vote(roster, s, shape.width, shape.size, at, k, buffer, count);
        at = submission_parts::certificate_end(s, at, shape.width, shape.size);
    }
    count
}
