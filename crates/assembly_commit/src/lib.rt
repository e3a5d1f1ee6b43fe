// The commit (document 02, W3): the highest index with a quorum of receipts that fit the log. Indexes are
// tried from the last down, so that a bag with receipts for every record costs those of one index.
#![tactic(auto)]

ghost use Rattle.std.specs.Prelude.{◌≡◌, ◌≤◌, length};
ghost use Rattle.log_checkpoints.specs.Checkpoints.{Checkpoints, table_size};
ghost use Rattle.roster.specs.Sizes.{replicas_most};
ghost use Rattle.assembly_copies.specs.Rows.{taken_size, Placed};
ghost use Rattle.assembly_commit.specs.Searched.{Receivable, ReceiptsFound, CommitFound, CommitRowHeld};

use assembly_copies::{Sought, TAKEN_SIZE};
use roster::REPLICAS_MOST;
use submission::STATEMENT_MOST;
use submission_trailer::RECORD_MOST;

// The room for the checkpoints of the longest log, pointer 0 among them.
const CHECKPOINTS_ROOM: usize = log_chain::POINTER_SIZE
    * (RECORD_MOST / log_checkpoints::SPACING + 1);

// The widths of the bag's items, and the number of records.
#[derive(Clone, Copy)]
pub struct LogSizes {
    pub width: usize,
    pub size: usize,
    pub records: usize,
}

// Finds the receipts that fit the first i records, from the checkpoints.
fn find_receipts(
    roster: &[u8],
    log: &[u8],
    items: &[u8],
    widths: LogSizes,
    i: usize,
    table: &[u8],
    places: &mut [usize],
)
    requires { Receivable roster.now log.now items.now widths × (i ≤ widths.records)
        × (table_size widths.records ≤ length table.now)
        × Checkpoints widths.width widths.records log.now table.now
        × (replicas_most ≤ length places.old) }
    ensures receipts { ReceiptsFound roster.now log.now items.now
        widths i places.new }
    ensures placed { Placed widths.size items.now replicas_most places.new }
    ensures room { length places.new ≡ length places.old }
{
    let width = widths.width;
    let term = log_terms::last_term(log, width, i);
    let pointer = log_checkpoints::pointer_at(log, width, widths.records, i, table);
    let mut statement = [0u8; STATEMENT_MOST];
    let head = log_chain::put_place_statement(
        &mut statement,
        log_chain::Kind::Receipt as u8,
        &roster[..roster::NAME_SIZE],
        width,
        term,
        i as u32,
        pointer,
    );
    let sought = Sought {
        width,
        size: widths.size,
        head,
        tail: 0,
        count: 1,
    };
    assembly_copies::find_copies(roster, items, &statement, sought, places);
}

// Finds the commit, and puts its row down: index, or 0 for none, a 0, and the places of the receipts.
pub fn find_commit(roster: &[u8], log: &[u8], items: &[u8], widths: LogSizes, row: &mut [usize])
    requires { Receivable roster.now log.now items.now widths × (length row.old ≡ taken_size) }
    ensures commit { CommitFound roster.now log.now items.now widths
        row.new }
    ensures held { CommitRowHeld widths.size items.now widths.records
        row.new }
    ensures room { length row.new ≡ taken_size }
{
    let mut table = [0u8; CHECKPOINTS_ROOM];
    let records = widths.records;
    log_checkpoints::put_checkpoints(log, widths.width, records, &mut table);
    let n = roster::replicas(roster);
    let quorum = roster::quorum(n);
    let mut places = [0usize; REPLICAS_MOST];
    for i in (1..=records).rev() {
        find_receipts(roster, log, items, widths, i, &table, &mut places);
        if quorum <= u16::count_ones(assembly_copies::masks::mask_of(&places, n)) {
            assembly_copies::places::put_row(row, 0, i, 0, &places);
            return;
        }
    }
    assembly_copies::clear(row, TAKEN_SIZE);
}
