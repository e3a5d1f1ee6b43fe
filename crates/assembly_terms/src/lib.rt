// The statements that are looked for in a bag, for the terms of a log (document 02, W3): tables of votes and
// stamps, from one walk over the log. Over the term's width.
#![tactic(auto)]

ghost use Rattle.std.specs.Prelude.{◌≡◌, [], ◌++◌, ◌*◌, ◌^◌, ◌≤◌, ◌<◌, length};
ghost use Rattle.words.specs.BigEndian.{be};
ghost use Rattle.words.specs.Widths.{width_most};
ghost use Rattle.words.specs.Over.{over};
ghost use Rattle.sha256.specs.Sha256.{bytes_of};
ghost use Rattle.roster.specs.Roster.{name_size, cluster};
ghost use Rattle.log_chain.specs.Log.{with_terms, last_term};
ghost use Rattle.log_chain.specs.Claim.{place};
ghost use Rattle.log_chain.specs.Records.{record_size, records_of};
ghost use Rattle.log_chain.specs.Runs.{runs};
ghost use Rattle.log_terms.specs.Pointed.{PointersCarried};
ghost use Rattle.submission.specs.Validate.{leader_most};
ghost use Rattle.assembly_terms.specs.Wanted.{vote_head, vote_tail, vote_end, votes_room, VotesIn};
ghost use Rattle.assembly_terms.specs.Wanted.{stamp_head, stamp_tail, stamp_end, stamps_room, StampsIn};
ghost use Rattle.assembly_terms.specs.Added.{EndsAdded};

use log_chain::Kind;
use log_terms::Walked;
use sha256::State;

// What a vote begins with (kind, cluster name, candidate), and where the candidate stands; what a stamp
// begins with (kind, cluster name).
pub const CANDIDATE_AT: usize = log_chain::NAME_AT + roster::NAME_SIZE;

pub const VOTE_HEAD: usize = CANDIDATE_AT + 2;

pub const STAMP_HEAD: usize = log_chain::NAME_AT + roster::NAME_SIZE;

// What a stamp has of its own, behind its head: term, index, pointer.
pub fn stamp_tail(width: usize) -> usize
    requires { width ≤ width_most }
    ensures { (result ≡ stamp_tail width) × (result ≤ stamp_tail width_most) }
{
    width + log_chain::INDEX_SIZE + log_chain::POINTER_SIZE
}

// And a vote: its term, and the same of the record before it.
pub fn vote_tail(width: usize) -> usize
    requires { width ≤ width_most }
    ensures { (result ≡ vote_tail width) × (result ≤ vote_tail width_most) }
{
    width + stamp_tail(width)
}

// Writes a place to the start of a buffer, and gives the number of its bytes: term, index, pointer.
fn put_place(out: &mut [u8], width: usize, term: u64, index: u32, pointer: State) -> usize
    requires { (width ≤ width_most) × (stamp_tail width ≤ length out.old) }
    ensures size { result ≡ stamp_tail width }
    ensures bytes { out.new
        ≡ over (be width term ++ be 4 index ++ bytes_of pointer) out.old }
{
    words::put_number(out, 0, width, term);
    words::put_u32(out, width, index);
    lm_hash::put_value(out, width + log_chain::INDEX_SIZE, pointer);
    stamp_tail(width)
}

// The same for the place of the last record where a walk has come to: the end of a stamp on it.
fn put_stamp_end(out: &mut [u8], log: &[u8], width: usize, upto: Walked) -> usize
    requires { (width ≤ width_most) × (upto.end < 2 ^ 32)
        × (record_size width * upto.end ≤ length log.now)
        × PointersCarried width 0 upto.end log.now upto.pointers
        × (stamp_tail width ≤ length out.old) }
    ensures size { result ≡ stamp_tail width }
    ensures bytes { out.new
        ≡ over (place (with_terms width []) (last_term (records_of width upto.end log.now))
        (records_of width upto.end log.now)) out.old }
{
    let term = log_terms::last_term(log, width, upto.end);
    let pointers = upto.pointers;
    put_place(out, width, term, upto.end as u32, pointers.last)
}

// Writes the end of a vote in a term, which begins where a walk has come to: the term, and the place there.
fn put_vote_end(out: &mut [u8], log: &[u8], width: usize, term: u64, before: Walked) -> usize
    requires { (width ≤ width_most) × (before.end < 2 ^ 32)
        × (record_size width * before.end ≤ length log.now)
        × PointersCarried width 0 before.end log.now before.pointers
        × (vote_tail width ≤ length out.old) }
    ensures size { result ≡ vote_tail width }
    ensures bytes { out.new
        ≡ over (be width term
        ++ place (with_terms width []) (last_term (records_of width before.end log.now))
        (records_of width before.end log.now)) out.old }
{
    words::put_number(out, 0, width, term);
    let rest = &mut out[width..];
    width + put_stamp_end(rest, log, width, before)
}

// Fills both tables behind their heads, and gives the number of terms: one hash a record.
fn put_ends(log: &[u8], width: usize, records: usize, votes: &mut [u8], stamps: &mut [u8]) -> usize
    requires { (width ≤ width_most) × (records < 2 ^ 32) × (record_size width * records ≤ length log.now)
        × (length (runs (records_of width records log.now)) ≤ leader_most)
        × (votes_room width ≤ length votes.old) × (stamps_room width ≤ length stamps.old) }
    ensures count { result ≡ length (runs (records_of width records log.now)) }
    ensures votes { EndsAdded vote_head (vote_end (with_terms width []))
        (runs (records_of width records log.now)) votes.old votes.new }
    ensures stamps { EndsAdded stamp_head (stamp_end (with_terms width []))
        (runs (records_of width records log.now)) stamps.old stamps.new }
    ensures rooms { (length votes.new ≡ length votes.old)
        × (length stamps.new ≡ length stamps.old) }
{
    let mut walked = log_terms::pointers::walk_start();
    let mut vote = VOTE_HEAD;
    let mut stamp = STAMP_HEAD;
    let mut end = 0;
    let mut count = 0;
    while end < records {
        let next = log_terms::pointers::next_run(log, width, records, 0, walked);
        end = next.end;
        let term = log_terms::last_term(log, width, end);
        let votes_left = &mut votes[vote..];
        vote += put_vote_end(votes_left, log, width, term, walked);
        let stamps_left = &mut stamps[stamp..];
        stamp += put_stamp_end(stamps_left, log, width, next);
        walked = next;
        count += 1;
    }
    count
}

// Fills both tables, for candidate 0, and gives the number of terms: one hash a record.
pub fn put_wanted(
    roster: &[u8],
    log: &[u8],
    width: usize,
    records: usize,
    votes: &mut [u8],
    stamps: &mut [u8],
) -> usize
    requires { (name_size ≤ length roster.now) × (width ≤ width_most) × (records < 2 ^ 32)
        × (record_size width * records ≤ length log.now)
        × (length (runs (records_of width records log.now)) ≤ leader_most)
        × (votes_room width ≤ length votes.old) × (stamps_room width ≤ length stamps.old) }
    ensures count { result ≡ length (runs (records_of width records log.now)) }
    ensures votes { VotesIn (with_terms width (cluster roster.now)) 0
        (runs (records_of width records log.now)) votes.new }
    ensures stamps { StampsIn (with_terms width (cluster roster.now))
        (runs (records_of width records log.now)) stamps.new }
    ensures rooms { (length votes.new ≡ length votes.old)
        × (length stamps.new ≡ length stamps.old) }
{
    let name = &roster[..roster::NAME_SIZE];
    let candidate = [0u8; 2];
    log_chain::put_vote_statement(votes, Kind::Vote as u8, name, &candidate);
    log_chain::put_vote_statement(stamps, Kind::Stamp as u8, name, &candidate[..0]);
    put_ends(log, width, records, votes, stamps)
}
