// The report (document 01, "The report"): its bytes for every case, and what they promise of naming and
// fairness (demand 3): definitions and proofs; and its size and places, for the code that writes and reads
// it.
#![tactic(auto)]

// The bytes of a report.
pub const REPORT_SIZE: usize = 53;

// Where its fields stand: the number first, then document 01's where, the fork index, the named replicas and
// the rows.
pub const PLACE_AT: usize = 1;

pub const FORK_AT: usize = 2;

pub const MASK_AT: usize = 6;

pub const ROWS_AT: usize = 8;

// Where a row's term stands, after the rule; its bytes, and those of the row.
pub const ROW_TERM_AT: usize = 1;

pub const ROW_TERM_SIZE: usize = 4;

pub const ROW_SIZE: usize = ROW_TERM_AT + ROW_TERM_SIZE;
