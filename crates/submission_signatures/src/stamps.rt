// The stamps of a submission (document 01, "What stops an audit", number 15), over the term's width.
ghost use Rattle.std.specs.Prelude.{◌≡◌, [], ◌∷◌, ◌++◌, map, ◌+◌, ◌≤◌, ◌<◌, length, take, drop};
ghost use Rattle.words.specs.BigEndian.{be, number_at};
ghost use Rattle.words.specs.Widths.{width_most};
ghost use Rattle.refusal.specs.Checks.{every};
ghost use Rattle.sha256.specs.Sha256.{bytes_of};
ghost use Rattle.lms.specs.Check.{good};
ghost use Rattle.roster.specs.Roster.{cluster, replicas, key_of, roster_number};
ghost use Rattle.log_chain.specs.Log as chain;
ghost use Rattle.submission.specs.View.{leads, stamp_of};
ghost use Rattle.submission.specs.Reading.{ballot_size};
ghost use Rattle.log_chain.specs.Records.{records_of};
ghost use Rattle.submission_signatures.specs.Checked.{Checked};
ghost use Rattle.submission_parts.specs.Shapes.{view_in};
ghost use Rattle.submission_signatures.specs.Genuine.{genuine_in};

use log_chain::Kind;
use sha256::State;
use submission::{STATEMENT_MOST, TERM_AT};
use submission_parts::Shape;

// Where a stamp stands and that of the leader certificate it goes with, and the record that it is on.
#[derive(Clone, Copy)]
pub struct StampPart {
    pub certificate: usize,
    pub signature: usize,
    pub index: u32,
    pub pointer: State,
}

// The stamp of a term that another follows, whose leader certificate stands at a next place: it is on the
// last record before that term, which that certificate names.
pub fn stamp_before(
    s: &[u8],
    width: usize,
    certificate: usize,
    signature: usize,
    next: usize,
) -> StampPart
    requires { (width ≤ width_most) × (next + ballot_size width ≤ length s.now) }
    ensures places { (result.certificate ≡ certificate) × (result.signature ≡ signature) }
    ensures index { result.index ≡ number_at 4 s.now (next + 2 + width + width) }
    ensures pointer { bytes_of result.pointer
        ≡ take 32 (drop (next + 2 + width + width + 4) s.now) }
{
    let last_index = next + TERM_AT + width + width;
    StampPart {
        certificate,
        signature,
        index: words::u32_at(s, last_index),
        pointer: lm_hash::value_at(s, last_index + log_chain::INDEX_SIZE),
    }
}

// Whether a stamp is good: its certificate's candidate's, in that term, on its record.
fn stamp_good(roster: &[u8], s: &[u8], width: usize, size: usize, stamp: StampPart) -> bool
    requires { (roster_number roster.now ≡ 0) × (width ≤ width_most)
        × (stamp.certificate + ballot_size width ≤ length s.now)
        × (0 < number_at 2 s.now stamp.certificate)
        × (number_at 2 s.now stamp.certificate ≤ replicas roster.now)
        × (stamp.signature + size ≤ length s.now) }
    ensures { result ≡ good (key_of roster.now (number_at 2 s.now stamp.certificate)) (1
        ∷ cluster roster.now ++ be width (number_at width s.now (stamp.certificate + 2))
        ++ be 4 stamp.index ++ bytes_of stamp.pointer) (take size (drop stamp.signature s.now)) }
{
    let at = stamp.certificate;
    let term = words::number_at(s, at + TERM_AT, width);
    let mut statement = [0u8; STATEMENT_MOST];
    let length = log_chain::put_place_statement(
        &mut statement,
        Kind::Stamp as u8,
        &roster[..roster::NAME_SIZE],
        width,
        term,
        stamp.index,
        stamp.pointer,
    );
    let end = stamp.signature + size;
    submission_slots::signature_genuine(
        roster,
        words::u16_at(s, at) as usize,
        &statement[..length],
        &s[stamp.signature..end],
    )
}

// Whether the stamps are good, from the pointer of the whole log. The last record of a term stands in the
// next leader certificate, as the last record before the next term; that of the last term is the log's.
pub fn stamps_good(roster: &[u8], s: &[u8], shape: Shape, pointer: State) -> bool
    requires { Checked roster.now shape s.now
        × (bytes_of pointer ≡ chain.pointer (chain.with_terms shape.width []) (records_of shape.width
        shape.records s.now)) }
    ensures { result
        ≡ every (genuine_in shape.width roster.now)
        (map (stamp_of shape.size) (leads (view_in shape s.now))) }
{
    let mut at = shape.from;
    let mut stamp = shape.stamps;
    for _ in 1..shape.leaders {
        let next = submission_parts::certificate_end(s, at, shape.width, shape.size);
        let part = stamp_before(s, shape.width, at, stamp, next);
        if !stamp_good(roster, s, shape.width, shape.size, part) {
            return false;
        }
        at = next;
        stamp += shape.size;
    }
    if shape.leaders == 0 {
        return true;
    }
    let last = StampPart {
        certificate: at,
        signature: stamp,
        index: shape.records as u32,
        pointer,
    };
    stamp_good(roster, s, shape.width, shape.size, last)
}
