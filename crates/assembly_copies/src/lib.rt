// The copies that count (document 02, W3): one walk over the bag finds, for each of some statements and each
// replica, the first item with a good signature. Where the statements differ, each item's signature is
// checked at most once in a walk.
#![tactic(auto)]

ghost use Rattle.std.specs.Prelude.{◌≡◌, true, false, ℕ, ◌+◌, ◌*◌, ◌≤◌, ◌<◌, length, get_or};
ghost use Rattle.sha256.specs.Service.{limit};
ghost use Rattle.roster.specs.Roster.{replicas, roster_number};
ghost use Rattle.roster.specs.Sizes.{replicas_most};
ghost use Rattle.assembly_copies.specs.Rows.{Placed};
ghost use Rattle.assembly_copies.specs.Sought.{Searched, CopiesFound};
ghost use Rattle.assembly_copies.specs.Offers.{Lies, Alike, Unlike, Offered, Taken, is_copy};

use assembly_items::ItemPlace;
use roster::REPLICAS_MOST;

pub mod masks;
pub mod places;

// A row of what is taken: candidate or commit index, the stamp, the votes or receipts. Where the last two
// stand, and the numbers of a row.
pub const STAMP_AT: usize = 1;

pub const PLACES_AT: usize = 2;

pub const TAKEN_SIZE: usize = PLACES_AT + REPLICAS_MOST;

// The statements that a walk looks for: how many bytes all begin with, how many are each one's own, and how
// many statements there are; with the widths of the bag's items.
#[derive(Clone, Copy)]
pub struct Sought {
    pub width: usize,
    pub size: usize,
    pub head: usize,
    pub tail: usize,
    pub count: usize,
}

// Clears the first cells.
pub fn clear(rows: &mut [usize], count: usize)
    requires { count ≤ length rows.old }
    ensures empty { (j : ℕ) → j < count → get_or rows.new j 0 ≡ 0 }
    ensures room { length rows.new ≡ length rows.old }
{
    rows[..count].fill(0);
}

// Whether an item can be a copy: its replica is one of the roster's, and its statement is as long as those
// that are looked for and begins as they do.
fn alike(roster: &[u8], items: &[u8], wanted: &[u8], sought: Sought, item: ItemPlace) -> bool
    requires { (roster_number roster.now ≡ 0)
        × (sought.head + sought.tail * sought.count ≤ length wanted.now)
        × Lies sought.size items.now item }
    ensures yes { result ≡ true → Alike roster.now items.now wanted.now
        sought item }
    ensures no { result ≡ false → Unlike roster.now items.now wanted.now
        sought item }
{
    let k = item.replica as usize;
    let own = item.signature - item.statement;
    if own < sought.head || own - sought.head != sought.tail {
        return false;
    }
    if k == 0 || roster::replicas(roster) < k {
        return false;
    }
    let end = item.statement + sought.head;
    items[item.statement..end] == wanted[..sought.head]
}

// Whether an item that begins as the statements do is a copy: it ends with some bytes, and its signature is
// good.
fn is_copy(roster: &[u8], items: &[u8], item: ItemPlace, end: &[u8]) -> bool
    requires { (roster_number roster.now ≡ 0) × (0 < item.replica)
        × (item.replica ≤ replicas roster.now) × (item.signature ≤ item.statement + limit)
        × (length end.now ≤ item.signature) × (item.statement ≤ item.signature)
        × (item.signature ≤ item.next) × (item.next ≤ length items.now) }
    ensures { result ≡ is_copy roster.now items.now item end.now }
{
    let own = item.signature - end.len();
    &items[own..item.signature] == end
        && submission_slots::signature_genuine(
            roster,
            item.replica as usize,
            &items[item.statement..item.signature],
            &items[item.signature..item.next],
        )
}

// Offers an item to each statement: its place is put down where there is none, and it is a copy.
fn offer(
    roster: &[u8],
    items: &[u8],
    wanted: &[u8],
    sought: Sought,
    item: ItemPlace,
    rows: &mut [usize],
)
    requires { Offered roster.now items.now wanted.now sought item rows.old }
    ensures taken { Taken roster.now items.now wanted.now sought item
        rows.old rows.new }
    ensures placed { Placed sought.size items.now (replicas_most * sought.count)
        rows.new }
    ensures room { length rows.new ≡ length rows.old }
{
    let column = item.replica as usize - 1;
    for m in 0..sought.count {
        let cell = REPLICAS_MOST * m + column;
        let from = sought.head + sought.tail * m;
        let end = from + sought.tail;
        let free = rows[cell] == 0;
        if free && is_copy(roster, items, item, &wanted[from..end]) {
            rows[cell] = item.signature;
        }
    }
}

// Finds the copies: row m has, for each replica, the place of its signature on statement m, or 0.
pub fn find_copies(roster: &[u8], items: &[u8], wanted: &[u8], sought: Sought, rows: &mut [usize])
    requires { Searched roster.now items.now wanted.now sought (length rows.old) }
    ensures copies { CopiesFound roster.now items.now wanted.now
        sought rows.new }
    ensures placed { Placed sought.size items.now (replicas_most * sought.count)
        rows.new }
    ensures room { length rows.new ≡ length rows.old }
{
    clear(rows, REPLICAS_MOST * sought.count);
    if sought.count == 0 {
        return;
    }
    let mut at = 0;
    while at < items.len() {
        let Some(item) = assembly_items::read(items, at, sought.width, sought.size) else {
            return;
        };
        at = item.next;
        if alike(roster, items, wanted, sought, item) {
            offer(roster, items, wanted, sought, item, rows);
        }
    }
}
