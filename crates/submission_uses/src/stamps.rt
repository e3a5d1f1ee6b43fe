// A replica's stamps in a submission, over the term's width.
ghost use Rattle.std.specs.Prelude.{◌≡◌, [], ◌++◌, map, ◌+◌, ◌*◌, ◌≤◌, ◌<◌, length};
ghost use Rattle.words.specs.Widths.{width_most};
ghost use Rattle.sha256.specs.Sha256.{bytes_of};
ghost use Rattle.roster.specs.Roster.{roster_number};
ghost use Rattle.log_chain.specs.Log as chain;
ghost use Rattle.log_chain.specs.Records.{records_of};
ghost use Rattle.submission.specs.View.{leads, stamp_of};
ghost use Rattle.submission.specs.Reading.{ballot_size};
ghost use Rattle.submission.specs.Validate.{uses};
ghost use Rattle.submission_parts.specs.Shapes.{view_in};
ghost use Rattle.submission_signatures.specs.Checked.{Checked};
ghost use Rattle.lm_format.specs.Leaf.{leaf_size};
ghost use Rattle.submission_leaves.specs.Entries.{entry_size, padded_use, entry_uses};
ghost use Rattle.submission_uses.specs.Signed.{slot_use_in};
ghost use Rattle.submission_uses.specs.StampUses.{stamp_uses};

use log_chain::Kind;
use sha256::State;
use submission::{STATEMENT_MOST, TERM_AT};
use submission_parts::Shape;
use submission_signatures::stamps::{self, StampPart};

// Puts a stamp, where it is replica k's.
fn add_stamp(
    roster: &[u8],
    s: &[u8],
    width: usize,
    stamp: StampPart,
    k: usize,
    buffer: &mut [u8],
    n: usize,
) -> usize
    requires { (roster_number roster.now ≡ 0) × (width ≤ width_most)
        × (stamp.certificate + ballot_size width ≤ length s.now)
        × (stamp.signature + leaf_size ≤ length s.now)
        × (entry_size * (n + 1) ≤ length buffer.old) }
    ensures few { result ≤ n + 1 }
    ensures uses { entry_uses result buffer.new ≡ entry_uses n buffer.old
        ++ map padded_use (stamp_uses roster.now s.now width k stamp) }
{
    let at = stamp.certificate;
    if words::u16_at(s, at) as usize != k {
        return n;
    }
    let term = words::number_at(s, at + TERM_AT, width);
    let leaf = words::u32_at(s, stamp.signature);
    let mut statement = [0u8; STATEMENT_MOST];
    let length = log_chain::put_place_statement(
        &mut statement,
        Kind::Stamp as u8,
        &roster[..roster::NAME_SIZE],
        width,
        term,
        stamp.index,
        stamp.pointer,
    );
    submission_leaves::add_use(buffer, n, leaf, length, &statement)
}

// Puts replica k's stamps, from the pointer of the whole log. The last record of a term stands in the next
// leader certificate, as the last record before the next term; that of the last term is the log's.
pub fn add_stamps(
    roster: &[u8],
    s: &[u8],
    shape: Shape,
    pointer: State,
    k: usize,
    buffer: &mut [u8],
    n: usize,
) -> usize
    requires { Checked roster.now shape s.now × (leaf_size ≤ shape.size)
        × (bytes_of pointer ≡ chain.pointer (chain.with_terms shape.width []) (records_of shape.width
        shape.records s.now))
        × (entry_size * (n + shape.leaders) ≤ length buffer.old) }
    ensures few { result ≤ n + shape.leaders }
    ensures uses { entry_uses result buffer.new ≡ entry_uses n buffer.old
        ++ map padded_use (uses (slot_use_in shape.width roster.now) k
        (map (stamp_of shape.size) (leads (view_in shape s.now)))) }
{
    let width = shape.width;
    let size = shape.size;
    let mut at = shape.from;
    let mut stamp = shape.stamps;
    let mut count = n;
    for _ in 1..shape.leaders {
        let next = submission_parts::certificate_end(s, at, width, size);
        let part = stamps::stamp_before(s, width, at, stamp, next);
        count = add_stamp(roster, s, width, part, k, buffer, count);
        at = next;
        stamp += size;
    }
    if shape.leaders == 0 {
        return count;
    }
    let last = StampPart {
        certificate: at,
        signature: stamp,
        index: shape.records as u32,
        pointer,
    };
    add_stamp(roster, s, width, last, k, buffer, count)
}
