// The votes of a submission (document 01, "What stops an audit", number 15), over the term's width.
ghost use Rattle.std.specs.Prelude.{◌≡◌, ◌+◌, ◌^◌, ◌≤◌, ◌<◌, length};
ghost use mathlib.Core.List.{flat_map};
ghost use Rattle.words.specs.Widths.{width_most};
ghost use Rattle.refusal.specs.Checks.{every};
ghost use Rattle.roster.specs.Roster.{replicas, roster_number};
ghost use Rattle.submission.specs.Reading.{signers_at, ballot_size, certificate_at, certificate_end};
ghost use Rattle.submission_signatures.specs.Votes.{ballots};
ghost use Rattle.submission_signatures.specs.Checked.{Checked};
ghost use Rattle.submission_parts.specs.Shapes.{view_in};
ghost use Rattle.submission_signatures.specs.Genuine.{genuine_in};

use log_chain::Kind;
use submission::{SIGNERS_SIZE, STATEMENT_MOST};
use submission_parts::Shape;

// Whether the votes of the leader certificate at a place are good.
fn votes_good_at(roster: &[u8], s: &[u8], width: usize, size: usize, at: usize) -> bool
    requires { (roster_number roster.now ≡ 0) × (width ≤ width_most)
        × (signers_at s.now (at + ballot_size width) < 2 ^ replicas roster.now)
        × (certificate_end width size s.now at ≤ length s.now) }
    ensures { result
        ≡ every (genuine_in width roster.now)
        (ballots size (certificate_at width s.now at)) }
{
    let end = at + submission::ballot_size(width);
    let mut statement = [0u8; STATEMENT_MOST];
    let length = log_chain::put_vote_statement(
        &mut statement,
        Kind::Vote as u8,
        &roster[..roster::NAME_SIZE],
        &s[at..end],
    );
    submission_slots::certificate_signatures_good(
        roster,
        &statement[..length],
        words::u16_at(s, end),
        s,
        end + SIGNERS_SIZE,
        size,
    )
}

// Whether the votes of the leader certificates are good.
pub fn votes_good(roster: &[u8], s: &[u8], shape: Shape) -> bool
    requires { Checked roster.now shape s.now }
    ensures { result
        ≡ every (genuine_in shape.width roster.now)
        (flat_map (ballots shape.size) (view_in shape s.now).leaders) }
{
    let mut at = shape.from;
    for _ in 0..shape.leaders {
        if !votes_good_at(roster, s, shape.width, shape.size, at) {
            return false;
        }
        at = submission_parts::certificate_end(s, at, shape.width, shape.size);
    }
    true
}
