// What two submissions show of each replica (document 01, "The report"; document 02, W5 and W6): definitions,
// that a fork leads to a charge, and what the order of rows gives.
#![tactic(auto)]

// The replicas that have a row.
pub const ROW_COUNT: usize = 9;
