// Every signature of a submission (document 01, "What stops an audit", 15), over the term's width.
#![tactic(auto)]

ghost use Rattle.std.specs.Prelude.{◌≡◌, false, cond, map};
ghost use Rattle.refusal.specs.Checks.{every};
ghost use Rattle.submission.specs.View.{leads, stamp_of, receipts_of, slots};
ghost use Rattle.submission_signatures.specs.Checked.{Checked, PointersIn};
ghost use Rattle.submission_parts.specs.Shapes.{view_in};
ghost use Rattle.submission_signatures.specs.Genuine.{genuine_in};

use log_terms::LogPointers;
use submission_parts::Shape;

pub mod receipts;
pub mod stamps;
pub mod votes;

// Whether the stamps and the receipts are good, from the pointers that check 13 hands on: the last stamp
// stands on the log's, the receipts on that of the committed records.
fn places_good(roster: &[u8], s: &[u8], shape: Shape, pointers: LogPointers) -> bool
    requires { Checked roster.now shape s.now × PointersIn shape s.now pointers }
    ensures { result
        ≡ cond (every (genuine_in shape.width roster.now)
        (map (stamp_of shape.size) (leads (view_in shape s.now))))
        (every (genuine_in shape.width roster.now)
        (receipts_of shape.size (view_in shape s.now).commit
        (view_in shape s.now).log)) false }
{
    if !stamps::stamps_good(roster, s, shape, pointers.last) {
        return false;
    }
    let Some((_, at)) = submission_parts::commit_part(s, shape.width, shape.size) else {
        return true;
    };
    receipts::receipts_good(roster, s, shape, at, pointers.committed)
}

// 15: whether every signature is good, from the pointers that check 13 hands on.
pub fn all_signatures_good(roster: &[u8], s: &[u8], shape: Shape, pointers: LogPointers) -> bool
    requires { Checked roster.now shape s.now × PointersIn shape s.now pointers }
    ensures { result
        ≡ every (genuine_in shape.width roster.now)
        (slots shape.size (view_in shape s.now)) }
{
    votes::votes_good(roster, s, shape) && places_good(roster, s, shape, pointers)
}
