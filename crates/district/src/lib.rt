// A district's run (document 02, W1): its definitions and claims, and the values that the code shares.
#![tactic(auto)]

// The bytes of the report after the submissions' numbers: the union, and the pair.
pub const TAIL_SIZE: usize = 4;

// Where the positions of the pair stand in them, behind the union.
pub const LOWER_AT: usize = 2;

pub const HIGHER_AT: usize = 3;

// A fork: its index, and the positions of its pair, from 1.
#[derive(Clone, Copy)]
pub struct Fork {
    pub index: u32,
    pub lower: u32,
    pub higher: u32,
}

// What pairs show: the union of the replicas named, and the first pair that forks, if one does.
#[derive(Clone, Copy)]
pub struct Shown {
    pub named: u16,
    pub fork: Option<Fork>,
}
