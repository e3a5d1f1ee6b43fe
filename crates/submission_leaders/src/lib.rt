// The leader certificates against the terms of the log (document 01, "What stops an audit", 13), over the
// term's width. This is the one walk over the log that hashes its records (document 02, W2). A pointer has no
// cluster name in it: that of the form is empty, or any, here.
#![tactic(auto)]

ghost use Rattle.std.specs.Prelude.{◌≡◌, true, List, [], ℕ, ◌+◌, ◌*◌, ◌≤◌, length, is_some, IfSome};
ghost use Rattle.sha256.specs.Sha256.{bytes_of};
ghost use Rattle.words.specs.Widths.{width_most};
ghost use Rattle.refusal.specs.Checks.{every};
ghost use Rattle.log_chain.specs.Log.{with_terms, pointer};
ghost use Rattle.log_chain.specs.Runs.{run};
ghost use Rattle.log_terms.specs.Pointed.{PointersOf};
ghost use Rattle.submission.specs.View.{committed, leads};
ghost use Rattle.log_chain.specs.Records.{record_size, records_of};
ghost use Rattle.submission.specs.Reading.{ballot_at, signers_at, ballot_size};
ghost use Rattle.submission.specs.Reading.{certificate_at};
ghost use Rattle.submission_parts.specs.Shapes.{Known, view_in};
ghost use Rattle.submission_leaders.specs.Leads as parts;
ghost use Rattle.submission.specs.Validate as paper;

use log_terms::LogPointers;
use sha256::State;
use submission::TERM_AT;
use submission_parts::Shape;

// Whether the last term, index and pointer of the certificate at a place are those of the first i records.
fn follows(s: &[u8], width: usize, at: usize, i: usize, before: State) -> bool
    requires { (width ≤ width_most) × (at + ballot_size width ≤ length s.now)
        × (record_size width * i ≤ length s.now) }
    ensures { result ≡ parts.follows (ballot_at width s.now at) (records_of width i
        s.now) (bytes_of before) }
{
    let last_term = at + TERM_AT + width;
    let last_index = last_term + width;
    let start = last_index + log_chain::INDEX_SIZE;
    let end = start + log_chain::POINTER_SIZE;
    words::number_at(s, last_term, width) == log_terms::last_term(s, width, i)
        && words::u32_at(s, last_index) as usize == i
        && s[start..end] == before.bytes()[..]
}

// Whether its candidate is 1 to n and one of its signers.
fn elected(s: &[u8], width: usize, at: usize, n: usize) -> bool
    requires { (width ≤ width_most) × (at + ballot_size width + 2 ≤ length s.now) }
    ensures { result ≡ parts.elected n (signers_at s.now (at + ballot_size width)) (ballot_at width
        s.now at).candidate }
{
    let candidate = words::u16_at(s, at) as usize;
    let signers = words::u16_at(s, at + submission::ballot_size(width));
    let replica = 1 <= candidate && candidate <= n;
    replica && roster::signer(signers, candidate)
}

// Whether the certificate at a place is that of the term after record i, which ends with record `end`.
fn leading(s: &[u8], n: usize, width: usize, at: usize, i: usize, end: usize, before: State) -> bool
    requires { (width ≤ width_most) × (at + ballot_size width + 2 ≤ length s.now)
        × (record_size width * i ≤ length s.now) × (record_size width * end ≤ length s.now)
        × (bytes_of before ≡ pointer (with_terms width []) (records_of width i s.now)) }
    ensures { (name stamp : List ℕ)
        → result ≡ paper.leading (with_terms width name) n (record {
          certificate = certificate_at width
              s.now at;
          term = run (records_of width i s.now) (records_of width end
              s.now);
          stamp = stamp;
        }) }
{
    words::number_at(s, at + TERM_AT, width) == log_terms::last_term(s, width, end)
        && follows(s, width, at, i, before)
        && elected(s, width, at, n)
}

// 13: where each certificate is that of its term, the pointers of the committed records and of the log, which
// the walk has carried along.
pub fn leaders_match_log(s: &[u8], n: usize, shape: Shape) -> Option<LogPointers>
    requires { Known shape s.now
        × (paper.one_each (view_in shape s.now) ≡ true) }
    ensures holds { (name : List ℕ)
        → is_some result ≡ every (paper.leading (with_terms shape.width name) n)
        (leads (view_in shape s.now)) }
    ensures pointers { IfSome result (PointersOf (with_terms shape.width [])
        (committed (view_in shape s.now)) (view_in shape s.now).log) }
{
    let commit = submission_parts::commit_index(s, shape.width, shape.size);
    let mut place = shape.from;
    let mut walked = log_terms::pointers::walk_start();
    for _ in 0..shape.leaders {
        let next = log_terms::pointers::next_run(s, shape.width, shape.records, commit, walked);
        let before = walked.pointers;
        if !leading(s, n, shape.width, place, walked.end, next.end, before.last) {
            return None;
        }
        place = submission_parts::certificate_end(s, place, shape.width, shape.size);
        walked = next;
    }
    Some(walked.pointers)
}
