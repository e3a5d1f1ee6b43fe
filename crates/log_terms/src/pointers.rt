// The terms of a log one after the other, with the running pointers, one hash a record (document 01, "Chain
// and statements"; document 02, W2), over the term's width. A pointer has no cluster name in it: that of the
// form is empty here.
ghost use Rattle.std.specs.Prelude.{◌≡◌, [], ◌∷◌, ◌+◌, ◌*◌, ◌^◌, ◌≤◌, ◌<◌, length};
ghost use Rattle.words.specs.Widths.{width_most};
ghost use Rattle.sha256.specs.Sha256.{bytes_of};
ghost use Rattle.log_chain.specs.Log.{Form, with_terms, pointer};
ghost use Rattle.log_chain.specs.Runs.{run};
ghost use Rattle.log_chain.specs.Records.{record_size, records_of};
ghost use Rattle.log_terms.specs.Later.{runs_left};
ghost use Rattle.log_terms.specs.Pointed.{PointersOf, PointersCarried};

use super::{LogPointers, Walked};
use sha256::State;

// The pointers of no record: 32 zero bytes each.
pub fn pointers_zero() -> LogPointers
    ensures { (form : Form) → PointersOf form [] [] result }
{
    let zero = State {
        a: 0,
        b: 0,
        c: 0,
        d: 0,
        e: 0,
        f: 0,
        g: 0,
        h: 0,
    };
    LogPointers {
        committed: zero,
        last: zero,
    }
}

// Where a walk begins: before the first record.
pub fn walk_start() -> Walked
    ensures end { result.end ≡ 0 }
    ensures pointed { (form : Form) → PointersOf form [] [] result.pointers }
{
    Walked {
        end: 0,
        pointers: pointers_zero(),
    }
}

// The pointer of record i + 1, from record i's.
pub fn step(s: &[u8], width: usize, i: usize, before: State) -> State
    requires { (width ≤ width_most) × (i + 1 < 2 ^ 32) × (record_size width * (i + 1) ≤ length s.now)
        × (bytes_of before ≡ pointer (with_terms width []) (records_of width i s.now)) }
    ensures { bytes_of result ≡ pointer (with_terms width []) (records_of width (i + 1) s.now) }
{
    let size = log_chain::record_size(width);
    let start = size * i;
    let end = start + size;
    log_chain::next_pointer((i + 1) as u32, &s[start..end], before)
}

// The pointers after record i + 1, from those after record i.
fn next(s: &[u8], width: usize, commit: usize, i: usize, before: LogPointers) -> LogPointers
    requires { (width ≤ width_most) × (i + 1 < 2 ^ 32) × (record_size width * (i + 1) ≤ length s.now)
        × PointersCarried width commit i s.now before }
    ensures { PointersCarried width commit (i + 1) s.now result }
{
    let last = step(s, width, i, before.last);
    if i < commit {
        return LogPointers {
            committed: last,
            last,
        };
    }
    let committed = before.committed;
    LogPointers { committed, last }
}

// The pointers after record `end`, from where a walk has come to: one hash a record.
fn pointers_after(s: &[u8], width: usize, commit: usize, from: Walked, end: usize) -> LogPointers
    requires { (width ≤ width_most) × (from.end ≤ end) × (end < 2 ^ 32)
        × (record_size width * end ≤ length s.now)
        × PointersCarried width commit from.end s.now from.pointers }
    ensures { PointersCarried width commit end s.now result }
{
    let mut p = from.pointers;
    for k in from.end..end {
        p = next(s, width, commit, k, p);
    }
    p
}

// The end of the term that follows where a walk has come to, with the pointers there.
pub fn next_run(s: &[u8], width: usize, records: usize, commit: usize, from: Walked) -> Walked
    requires { (width ≤ width_most) × (from.end < records) × (records < 2 ^ 32)
        × (record_size width * records ≤ length s.now)
        × PointersCarried width commit from.end s.now from.pointers }
    ensures ends { (from.end < result.end) × (result.end ≤ records) }
    ensures pointed { PointersCarried width commit result.end s.now result.pointers }
    ensures runs { runs_left width records from.end s.now
        ≡ run (records_of width from.end s.now) (records_of width result.end s.now)
        ∷ runs_left width records result.end s.now }
{
    let end = super::run_end(s, width, records, from.end);
    let pointers = pointers_after(s, width, commit, from, end);
    Walked { end, pointers }
}
