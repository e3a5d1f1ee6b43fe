// The pointer of any record of a log, from those of every 64th (document 01, "Chain and statements"), over
// the term's width: at most 63 hashes each, and a table of 32 bytes for 64 records.
#![tactic(auto)]

ghost use Rattle.std.specs.Prelude.{◌≡◌, [], ◌*◌, ◌^◌, ◌≤◌, ◌<◌, length};
ghost use Rattle.words.specs.Widths.{width_most};
ghost use Rattle.sha256.specs.Sha256.{bytes_of};
ghost use Rattle.log_chain.specs.Log.{with_terms, pointer};
ghost use Rattle.log_chain.specs.Records.{record_size, records_of};
ghost use Rattle.log_checkpoints.specs.Checkpoints.{Checkpoints, table_size};

use log_chain::POINTER_SIZE;
use sha256::State;

// How many records stand from one checkpoint to the next.
pub const SPACING: usize = 64;

// Fills the table: one hash a record.
pub fn put_checkpoints(s: &[u8], width: usize, records: usize, table: &mut [u8])
    requires { (width ≤ width_most) × (records < 2 ^ 32) × (record_size width * records ≤ length s.now)
        × (table_size records ≤ length table.old) }
    ensures { Checkpoints width records s.now table.new }
{
    let zero = log_terms::pointers::pointers_zero();
    let mut p = zero.last;
    lm_hash::put_value(table, 0, p);
    for k in 0..records {
        p = log_terms::pointers::step(s, width, k, p);
        if (k + 1) % SPACING == 0 {
            lm_hash::put_value(table, POINTER_SIZE * ((k + 1) / SPACING), p);
        }
    }
}

// The pointer of record i, from the checkpoint before it.
pub fn pointer_at(s: &[u8], width: usize, records: usize, i: usize, table: &[u8]) -> State
    requires { (width ≤ width_most) × (records < 2 ^ 32) × (record_size width * records ≤ length s.now)
        × (i ≤ records) × (table_size records ≤ length table.now)
        × Checkpoints width records s.now table.now }
    ensures { bytes_of result ≡ pointer (with_terms width []) (records_of width i s.now) }
{
    let m = i / SPACING;
    let mut p = lm_hash::value_at(table, POINTER_SIZE * m);
    for k in SPACING * m..i {
        p = log_terms::pointers::step(s, width, k, p);
    }
    p
}
