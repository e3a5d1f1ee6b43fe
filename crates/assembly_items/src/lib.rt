// The items of a bag (document 02, W3): the reader, which gives where an item's parts stand, if it is one;
// and check 19. Over the term's width and the signature's length.
#![tactic(auto)]

ghost use Rattle.std.specs.Prelude.{◌≡◌, ◌+◌, ◌≤◌, ◌<◌, length, MatchOption};
ghost use Rattle.words.specs.Widths.{width_most};
ghost use Rattle.roster.specs.Sizes.{signature_most};
ghost use Rattle.assembly.specs.Items as paper;
ghost use Rattle.submission.specs.Sizes.{statement_most};
ghost use Rattle.assembly_items.specs.Reader.{item_at, item_reading};

use log_chain::Kind;

// Where the statement stands in an item, after the replica's number.
const STATEMENT_AT: usize = 2;

// An item: its replica, where its statement and its signature stand, and where the next item begins.
#[derive(Clone, Copy)]
pub struct ItemPlace {
    pub replica: u16,
    pub statement: usize,
    pub signature: usize,
    pub next: usize,
}

// The item at a place, of a statement of so many bytes; none where the bag ends inside it.
fn place(items: &[u8], at: usize, bytes: usize, size: usize) -> Option<ItemPlace>
    requires { (at + 2 < length items.now) × (bytes ≤ statement_most) × (size ≤ signature_most) }
    ensures { MatchOption result (length items.now < at + 2 + bytes + size)
        (λ i. (i ≡ item_at size items.now at bytes) × (at + 2 + bytes + size ≤ length items.now)) }
{
    let statement = at + STATEMENT_AT;
    let signature = statement + bytes;
    let next = signature + size;
    if items.len() < next {
        return None;
    }
    let replica = words::u16_at(items, at);
    Some(ItemPlace {
        replica,
        statement,
        signature,
        next,
    })
}

// The item at a place; none where its kind is none or the bag ends inside it. (Each size goes to a call of
// its own: of one size for all kinds the compiler may make a choice without a branch, so that the place of
// the next item waits for this one's kind byte, and a walk over a large bag takes several times as long.)
pub fn read(items: &[u8], at: usize, width: usize, size: usize) -> Option<ItemPlace>
    requires { (at ≤ length items.now) × (width ≤ width_most) × (size ≤ signature_most) }
    ensures { result ≡ item_reading width size items.now at }
{
    let kind = *items.get(at + STATEMENT_AT)?;
    let Ok(kind) = Kind::try_from(kind) else {
        return None;
    };
    let name = log_chain::NAME_AT + roster::NAME_SIZE;
    match kind {
        Kind::Stamp | Kind::Receipt => {
            let bytes = name + width + log_chain::INDEX_SIZE + log_chain::POINTER_SIZE;
            place(items, at, bytes, size)
        }
        Kind::Vote => place(items, at, name + submission::ballot_size(width), size),
    }
}

// 19: whether every kind byte is 1, 2 or 3, and the bag does not end inside an item.
pub fn items_whole(items: &[u8], width: usize, size: usize) -> bool
    requires { (width ≤ width_most) × (size ≤ signature_most) }
    ensures { result ≡ paper.whole width size items.now }
{
    let mut at = 0;
    while at < items.len() {
        let Some(item) = read(items, at, width, size) else {
            return false;
        };
        at = item.next;
    }
    true
}
