// The pairs of a district's accepted submissions, audited (document 02, W1). Both loops run from the last
// position down: of the pairs that fork the first one is seen last, and stays.
#![tactic(auto)]

ghost use Rattle.std.specs.Prelude.{◌≡◌, [], ◌++◌, suc, ◌<◌, drop, IfSome};
ghost use Rattle.roster.specs.Roster.{roster_number};
ghost use Rattle.district_parts.specs.Parts.{count_most};
ghost use Rattle.forensics_charges.specs.Charges.{findings_of};
ghost use Rattle.district.specs.District as paper;
ghost use Rattle.district_pairs.specs.Entries as inner;

use district::{Fork, Shown};
use district_parts::COUNT_MOST;
use forensics_charges::Findings;
use log_terms::LogPointers;

// A submission of the buffer: its position among all, from 1, where it stands, and the pointers of its
// committed records and of its log.
#[derive(Clone, Copy)]
pub struct Part {
    pub position: u32,
    pub start: usize,
    pub size: usize,
    pub pointers: LogPointers,
}

// The submissions that are accepted, in their order. A count stands beside the array, and no `ArrayVec`: that
// would ask `Part` for a `Default`, the zeros of `no_entries` again, and for an allocator's type.
#[derive(Clone, Copy)]
pub struct Entries {
    pub count: usize,
    pub parts: [Part; COUNT_MOST],
}

// No submission yet.
pub fn no_entries() -> Entries
    ensures parts { inner.parts_of result ≡ [] }
    ensures room { inner.Room 0 result }
{
    let zero = log_terms::pointers::pointers_zero();
    Entries {
        count: 0,
        parts: [Part {
            position: 0,
            start: 0,
            size: 0,
            pointers: zero,
        }; COUNT_MOST],
    }
}

// The submissions with the next one, of index i from 0, if it is not refused, whatever the refusal.
pub fn with_judged<E: Copy>(
    entries: Entries,
    validated: Result<LogPointers, E>,
    i: usize,
    start: usize,
    size: usize,
) -> Entries
    requires { inner.Room i entries × (i < count_most) }
    ensures parts { inner.parts_of result ≡ inner.parts_of entries ++ inner.judged validated i start size }
    ensures room { inner.Room (suc i) result }
{
    let Ok(pointers) = validated else {
        return entries;
    };
    let count = entries.count;
    let mut parts = entries.parts;
    parts[count] = Part {
        position: (i + 1) as u32,
        start,
        size,
        pointers,
    };
    Entries {
        count: count + 1,
        parts,
    }
}

// The audit of two of them.
fn audit_parts(roster: &[u8], buffer: &[u8], a: Part, b: Part) -> Findings
    requires { (roster_number roster.now ≡ 0) × inner.Fit roster.now buffer.now a
        × inner.Fit roster.now buffer.now b }
    ensures findings { findings_of result
        ≡ paper.found roster.now (paper.pair (inner.entry_of buffer.now a)
        (inner.entry_of buffer.now b)) }
    ensures fork { IfSome result.fork (λ index. 0 < index) }
{
    let a_start = a.start;
    let a_end = a_start + a.size;
    let b_start = b.start;
    let b_end = b_start + b.size;
    forensics_find::find(
        roster,
        &buffer[a_start..a_end],
        &buffer[b_start..b_end],
        a.pointers,
        b.pointers,
    )
}

// What a pair of two positions shows, before later pairs: its own fork stays, where it has one.
fn with_pair(lower: u32, higher: u32, found: Findings, later: Shown) -> Shown
    requires { IfSome found.fork (λ index. 0 < index) }
    ensures { result ≡ inner.before lower higher (findings_of found) later }
{
    let named = report_rows::mask::named_mask(found.rows) | later.named;
    let own = found.fork.map(|index| Fork {
        index,
        lower,
        higher,
    });
    let fork = own.or(later.fork);
    Shown { named, fork }
}

// What the pairs of the accepted submission i with those after it show, before those of the later ones.
fn pairs_with(roster: &[u8], buffer: &[u8], entries: Entries, i: usize, later: Shown) -> Shown
    requires { inner.Held roster.now buffer.now entries × (i < entries.count)
        × (later
        ≡ paper.shown roster.now (paper.pairs (drop (suc i) (inner.entries_of buffer.now entries)))) }
    ensures { result
        ≡ paper.shown roster.now
        (paper.pairs (drop i (inner.entries_of buffer.now entries))) }
{
    let parts = entries.parts;
    let a = parts[i];
    let mut shown = later;
    for j in (i + 1..entries.count).rev() {
        let b = parts[j];
        let found = audit_parts(roster, buffer, a, b);
        shown = with_pair(a.position, b.position, found, shown);
    }
    shown
}

// What all their pairs show.
pub fn pairs_shown(roster: &[u8], buffer: &[u8], entries: Entries) -> Shown
    requires { inner.Held roster.now buffer.now entries }
    ensures { result
        ≡ paper.shown roster.now
        (paper.pairs (inner.entries_of buffer.now entries)) }
{
    let mut shown = Shown {
        named: 0,
        fork: None,
    };
    for i in (0..entries.count).rev() {
        shown = pairs_with(roster, buffer, entries, i, shown);
    }
    shown
}
