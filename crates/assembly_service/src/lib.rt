// Assembling a submission (document 02, W3): the checks in order, then what is taken from the bag, and only
// when 20 and 21 are known a byte of the output is written.
#![tactic(auto)]

ghost use Rattle.std.specs.Prelude.{◌≡◌, ◌+◌, ◌*◌, ◌≤◌, length, take, drop};
ghost use Rattle.std.specs.Result.{result_unwrap_or};
ghost use Rattle.refusal.specs.Refusals.{number_of};
ghost use Rattle.words.specs.Widths.{width_most};
ghost use Rattle.roster.specs.Sizes.{signature_most};
ghost use Rattle.submission.specs.Validate.{form_of, leader_most};
ghost use Rattle.assembly.specs.Assembly as paper;
ghost use Rattle.assembly_copies.specs.Rows.{taken_size};
ghost use Rattle.assembly_commit.specs.Searched.{Receivable, CommitFound, CommitRowHeld};
ghost use Rattle.assembly_terms.specs.Wanted.{votes_room, stamps_room};
ghost use Rattle.assembly_service.specs.Taken.{Checked, RowsTaken};

use assembly_choice::Terms;
use assembly_commit::LogSizes;
use assembly_copies::TAKEN_SIZE;
use assembly_writer::Plan;
use refusal::Refusal;
use submission_trailer::{LEADER_MOST, RECORD_MOST, TERM_SIZE};

// What a stamp and a vote have of their own (term, index, pointer; and the term before it), and the tables of
// both.
const PLACE_SIZE: usize = TERM_SIZE + log_chain::INDEX_SIZE + log_chain::POINTER_SIZE;

const VOTES_ROOM: usize = assembly_terms::VOTE_HEAD + (TERM_SIZE + PLACE_SIZE) * LEADER_MOST;

const STAMPS_ROOM: usize = assembly_terms::STAMP_HEAD + PLACE_SIZE * LEADER_MOST;

// The rows: one for each term, and one for the commit.
const TAKEN_ROOM: usize = TAKEN_SIZE * (LEADER_MOST + 1);

// 8: whether a log has whole records, at most 4,096 of them, and at most 64 distinct terms.
fn log_counted(log: &[u8], width: usize) -> bool
    requires { width ≤ width_most }
    ensures { result ≡ paper.log_counted width log.now }
{
    let size = log_chain::record_size(width);
    if log.len() % size != 0 {
        return false;
    }
    let records = log.len() / size;
    if RECORD_MOST < records {
        return false;
    }
    log_distinct::terms_at_most(log, width, records, LEADER_MOST)
}

// Checks 8, 11 and 19: the first that is not met.
fn validate_input(log: &[u8], items: &[u8], width: usize, size: usize) -> Result<(), Refusal>
    requires { (width ≤ width_most) × (size ≤ signature_most) }
    ensures { number_of result ≡ paper.input_number width size log.now items.now }
{
    if !log_counted(log, width) {
        return Err(Refusal::Counts);
    }
    let records = log.len() / log_chain::record_size(width);
    if !log_terms::terms_in_order(log, width, records) {
        return Err(Refusal::TermOrder);
    }
    if !assembly_items::items_whole(items, width, size) {
        return Err(Refusal::Item);
    }
    Ok(())
}

// Finds the commit, and puts its row down at a place of the rows.
fn take_commit(
    roster: &[u8],
    log: &[u8],
    items: &[u8],
    widths: LogSizes,
    taken: &mut [usize],
    at: usize,
)
    requires { Receivable roster.now log.now items.now widths
        × (at + taken_size ≤ length taken.old) }
    ensures kept { take at taken.new ≡ take at taken.old }
    ensures commit { CommitFound roster.now log.now items.now widths
        (drop at taken.new) }
    ensures held { CommitRowHeld widths.size items.now widths.records
        (drop at taken.new) }
    ensures room { length taken.new ≡ length taken.old }
{
    let end = at + TAKEN_SIZE;
    let row = &mut taken[at..end];
    assembly_commit::find_commit(roster, log, items, widths, row);
}

// Takes what the submission needs from the bag: fills the tables, and puts down the rows. Gives the number of
// terms; none where some term has no leader.
fn take_rows(
    roster: &[u8],
    log: &[u8],
    items: &[u8],
    votes: &mut [u8],
    stamps: &mut [u8],
    taken: &mut [usize],
) -> Option<usize>
    requires { Checked roster.now log.now items.now
        × (votes_room (form_of roster.now).term_bytes ≤ length votes.old)
        × (stamps_room (form_of roster.now).term_bytes ≤ length stamps.old)
        × (taken_size * (leader_most + 1) ≤ length taken.old) }
    ensures { RowsTaken roster.now log.now items.now
        votes.new taken.new result }
{
    let width = TERM_SIZE;
    let size = roster::signature_size(roster);
    let records = log.len() / log_chain::record_size(width);
    let count = assembly_terms::put_wanted(roster, log, width, records, votes, stamps);
    let terms = Terms { width, size, count };
    if !assembly_choice::choose(roster, items, votes, stamps, terms, taken) {
        return None;
    }
    let widths = LogSizes {
        width,
        size,
        records,
    };
    take_commit(roster, log, items, widths, taken, TAKEN_SIZE * count);
    Some(count)
}

// Assembles what the checks have let through.
fn assemble_checked(
    roster: &[u8],
    log: &[u8],
    items: &[u8],
    output: &mut [u8],
) -> Result<usize, Refusal>
    requires { Checked roster.now log.now items.now }
    ensures number { number_of result
        ≡ paper.assemble_number roster.now log.now items.now
        output.old }
    ensures length { result_unwrap_or result 0
        ≡ paper.assemble_length roster.now log.now items.now
        output.old }
    ensures bytes { output.new
        ≡ paper.output_after roster.now log.now items.now
        output.old }
{
    let mut votes = [0u8; VOTES_ROOM];
    let mut stamps = [0u8; STAMPS_ROOM];
    let mut taken = [0usize; TAKEN_ROOM];
    let Some(leaders) = take_rows(roster, log, items, &mut votes, &mut stamps, &mut taken) else {
        return Err(Refusal::NoLeader);
    };
    let plan = Plan {
        width: TERM_SIZE,
        size: roster::signature_size(roster),
        replicas: roster::replicas(roster),
        records: log.len() / log_chain::record_size(TERM_SIZE),
        leaders,
    };
    if output.len() < assembly_writer::sizes::written_size(log, plan, &taken) {
        return Err(Refusal::ShortOutput);
    }
    Ok(assembly_writer::write(output, roster, log, items, &votes, plan, &taken))
}

// Assembles a submission: how many bytes of the output were written, or the first refusal that applies, which
// writes nothing.
pub fn assemble(
    roster: &[u8],
    log: &[u8],
    items: &[u8],
    output: &mut [u8],
) -> Result<usize, Refusal>
    ensures number { number_of result
        ≡ paper.assemble_number roster.now log.now items.now
        output.old }
    ensures length { result_unwrap_or result 0
        ≡ paper.assemble_length roster.now log.now items.now
        output.old }
    ensures bytes { output.new
        ≡ paper.output_after roster.now log.now items.now
        output.old }
{
    roster_checks::validate(roster)?;
    validate_input(log, items, TERM_SIZE, roster::signature_size(roster))?;
    assemble_checked(roster, log, items, output)
}
