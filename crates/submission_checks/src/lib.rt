// The first check that a submission does not meet (document 01, "What stops an audit": the lowest number that
// applies), each check asked after those before it; or, where all are met, the pointers that check 13's walk
// over the log hands on (document 02, W2). The term's width is fixed here, by the version, and free below.
#![tactic(auto)]

ghost use Rattle.std.specs.Prelude.{◌≡◌, [], length};
ghost use Rattle.refusal.specs.Checks.{refusal, first};
ghost use Rattle.refusal.specs.Refusals.{number_of};
ghost use Rattle.roster.specs.Roster.{roster_number};
ghost use Rattle.log_chain.specs.Log.{Form, with_terms};
ghost use Rattle.submission.specs.View.{View};
ghost use Rattle.submission.specs.Reading.{view};
ghost use Rattle.submission_parts.specs.Parts.{Bounds};
ghost use Rattle.submission_parts.specs.Shapes.{Known, view_in};
ghost use Rattle.submission.specs.Validate as paper;
ghost use Rattle.submission_signatures.specs.Checked.{Laid, Counted};
ghost use Rattle.submission_checks.specs.Checks.{leader_checks, log_checks, part_checks};
ghost use Rattle.submission_checks.specs.Pointers.{PointersHanded, PointersGiven};

use log_terms::LogPointers;
use refusal::Refusal;
use submission_parts::Shape;

// 14: whether the commit index is not 0 and not above H, where there is one.
fn index_within_log(s: &[u8], shape: Shape) -> bool
    requires { Known shape s.now }
    ensures { result ≡ paper.within (view_in shape s.now).commit
        (length (view_in shape s.now).log) }
{
    let Some((c, _)) = submission_parts::commit_part(s, shape.width, shape.size) else {
        return true;
    };
    let index = c.index as usize;
    0 < index && index <= shape.records
}

// 13 to 15.
fn validate_leaders(roster: &[u8], s: &[u8], shape: Shape) -> Result<LogPointers, Refusal>
    requires { Counted roster.now shape s.now }
    ensures number { number_of result ≡ refusal (leader_checks roster.now shape.width
        shape.size s.now) }
    ensures pointers { PointersHanded (with_terms shape.width []) (view_in shape s.now)
        result }
{
    let n = roster::replicas(roster);
    let Some(pointers) = submission_leaders::leaders_match_log(s, n, shape) else {
        return Err(Refusal::Leader);
    };
    if !index_within_log(s, shape) {
        return Err(Refusal::CommitIndex);
    }
    if !submission_signatures::all_signatures_good(roster, s, shape, pointers) {
        return Err(Refusal::Signature);
    }
    Ok(pointers)
}

// 11 to 15.
fn validate_log(roster: &[u8], s: &[u8], shape: Shape) -> Result<LogPointers, Refusal>
    requires { Laid roster.now shape s.now }
    ensures number { number_of result ≡ refusal (log_checks roster.now shape.width shape.size
        s.now) }
    ensures pointers { PointersHanded (with_terms shape.width []) (view_in shape s.now)
        result }
{
    if !log_terms::terms_in_order(s, shape.width, shape.records) {
        return Err(Refusal::TermOrder);
    }
    let runs = log_terms::run_count(s, shape.width, shape.records);
    if shape.leaders != runs {
        return Err(Refusal::TermCount);
    }
    validate_leaders(roster, s, shape)
}

// 9 to 15.
fn validate_parts(
    roster: &[u8],
    s: &[u8],
    width: usize,
    size: usize,
) -> Result<LogPointers, Refusal>
    requires { (roster_number roster.now ≡ 0) × Bounds width size s.now }
    ensures number { number_of result ≡ refusal (part_checks roster.now width size
        s.now) }
    ensures pointers { PointersHanded (with_terms width []) (view width size s.now) result }
{
    if !submission_parts::layout::parts_laid_out(s, width, size) {
        return Err(Refusal::Layout);
    }
    let n = roster::replicas(roster);
    if !submission_quorums::all_signers_quorate(s, n, width, size) {
        return Err(Refusal::Signers);
    }
    validate_log(
        roster,
        s,
        submission_parts::layout::shape_of(s, width, size),
    )
}

// 5 to 15, against a roster that has no refusal.
pub fn validate_submission(roster: &[u8], s: &[u8]) -> Result<LogPointers, Refusal>
    requires { roster_number roster.now ≡ 0 }
    ensures number { number_of result ≡ paper.validate roster.now s.now }
    ensures pointers { PointersHanded (paper.form_of roster.now)
        (paper.view_of roster.now s.now) result }
{
    if !submission_trailer::size_in_range(s) {
        return Err(Refusal::Size);
    }
    if !submission_trailer::version_known(s) {
        return Err(Refusal::Version);
    }
    if !submission_trailer::name_matches(roster, s) {
        return Err(Refusal::Cluster);
    }
    if !submission_trailer::counts_in_range(s) {
        return Err(Refusal::Counts);
    }
    let size = roster::signature_size(roster);
    validate_parts(roster, s, submission_trailer::TERM_SIZE, size)
}

// The pointers that validating hands on, and pointer 0 twice where it refuses.
pub fn handed(validated: Result<LogPointers, Refusal>) -> LogPointers
    ensures { (form : Form) (v : View) → PointersHanded form v validated
        → PointersGiven form v validated result }
{
    match validated {
        Ok(pointers) => pointers,
        Err(_) => log_terms::pointers::pointers_zero(),
    }
}

// The roster's refusal, or what the submission gets against it.
pub fn validate(roster: &[u8], s: &[u8]) -> Result<LogPointers, Refusal>
    ensures number { number_of result ≡ first (roster_number roster.now)
        (paper.validate roster.now s.now) }
    ensures pointers { PointersHanded (paper.form_of roster.now)
        (paper.view_of roster.now s.now) result }
{
    roster_checks::validate(roster)?;
    validate_submission(roster, s)
}
