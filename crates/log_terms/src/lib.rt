// The terms of a log: where each ends, their order and their number (document 01, "What stops an audit", 11
// and 12), over the term's width.
#![tactic(auto)]

ghost use Rattle.std.specs.Prelude.{◌≡◌, ◌∷◌, ◌+◌, ◌*◌, ◌≤◌, ◌<◌, length};
ghost use Rattle.words.specs.BigEndian.{number_at};
ghost use Rattle.words.specs.Widths.{width_most};
ghost use Rattle.log_chain.specs.Log.{last_term};
ghost use Rattle.log_chain.specs.Ends.{rising};
ghost use Rattle.log_chain.specs.Runs.{run, runs};
ghost use Rattle.log_chain.specs.Records.{record_size, records_of};
ghost use Rattle.log_terms.specs.Later.{runs_left};

use sha256::State;

pub mod pointers;

// A log is its bytes, with the term's width and the number of records beside them in each call: a type of the
// three with their bound would ask more of callers of `last_term`, `next_run` and `terms_in_order` (docs/).

// What a walk over the log carries along: the pointer of the last record so far, and that of the last one up
// to a commit index. Each is pointer 0 where there is no such record, as the definition `pointer` has it.
#[derive(Clone, Copy)]
pub struct LogPointers {
    pub committed: State,
    pub last: State,
}

// Where a walk over the terms has come to: a term's last index, and the pointers there.
#[derive(Clone, Copy)]
pub struct Walked {
    pub end: usize,
    pub pointers: LogPointers,
}

// The term of the record that follows record i.
fn term_after(s: &[u8], width: usize, i: usize) -> u64
    requires { (width ≤ width_most) × (record_size width * i + record_size width ≤ length s.now) }
    ensures { result ≡ number_at width s.now (record_size width * i) }
{
    words::number_at(s, log_chain::record_size(width) * i, width)
}

// The term of record i, 0 for an empty log, as the definition `last_term` has it (document 01).
pub fn last_term(s: &[u8], width: usize, i: usize) -> u64
    requires { (width ≤ width_most) × (record_size width * i ≤ length s.now) }
    ensures { result ≡ last_term (records_of width i s.now) }
{
    if i == 0 {
        return 0;
    }
    term_after(s, width, i - 1)
}

// 11: whether no term is 0 or below the one before.
pub fn terms_in_order(s: &[u8], width: usize, records: usize) -> bool
    requires { (width ≤ width_most) × (record_size width * records ≤ length s.now) }
    ensures { result ≡ rising 1 (records_of width records s.now) }
{
    let mut low = 1;
    for i in 0..records {
        let term = term_after(s, width, i);
        if term < low {
            return false;
        }
        low = term;
    }
    true
}

// The last index of the term whose first record follows record i.
pub fn run_end(s: &[u8], width: usize, records: usize, i: usize) -> usize
    requires { (width ≤ width_most) × (i < records) × (record_size width * records ≤ length s.now) }
    ensures { (i < result) × (result ≤ records)
        × (runs_left width records i s.now
        ≡ run (records_of width i s.now) (records_of width result s.now)
        ∷ runs_left width records result s.now) }
{
    let term = term_after(s, width, i);
    for end in i + 1..records {
        if term_after(s, width, end) != term {
            return end;
        }
    }
    records
}

// 12: the number of distinct terms.
pub fn run_count(s: &[u8], width: usize, records: usize) -> usize
    requires { (width ≤ width_most) × (record_size width * records ≤ length s.now) }
    ensures { result ≡ length (runs (records_of width records s.now)) }
{
    let mut count = 0;
    let mut i = 0;
    while i < records {
        i = run_end(s, width, records, i);
        count += 1;
    }
    count
}
