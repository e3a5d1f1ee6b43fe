// The leaders (document 02, W3): for each term of a log the lowest-numbered candidate with a quorum of votes,
// its own among them, and a stamp. Candidates are tried from n down, and the last one that will do stays.
#![tactic(auto)]

ghost use Rattle.std.specs.Prelude.{◌≡◌, List, ℕ, ◌-◌, ◌*◌, ◌≤◌, ◌<◌, length};
ghost use Rattle.roster.specs.Roster.{cluster, replicas};
ghost use Rattle.log_chain.specs.Log.{with_terms};
ghost use Rattle.log_chain.specs.Runs.{Run};
ghost use Rattle.roster.specs.Sizes.{replicas_most};
ghost use Rattle.assembly_copies.specs.Rows.{taken_size, Placed};
ghost use Rattle.assembly_terms.specs.Wanted.{votes_room, stamps_room, VotesIn, StampsIn};
ghost use Rattle.assembly_choice.specs.Chosen.{sought_for, Choosable, LeadersChosen, RowsHeld};
ghost use Rattle.assembly_choice.specs.Settled.{all_taken, electable, Settled, Tried};
ghost use Rattle.assembly_choice.specs.Settled.{StampsPlaced, VotesPlaced};

use assembly_copies::{Sought, TAKEN_SIZE};
use roster::REPLICAS_MOST;
use submission_trailer::LEADER_MOST;

// The widths of the bag's items, and the number of terms.
// Flat, as `LogSizes`, `Plan` and `Sought` are: a struct of the two widths would only make each path longer.
#[derive(Clone, Copy)]
pub struct Terms {
    pub width: usize,
    pub size: usize,
    pub count: usize,
}

impl Terms {
    // Statements, one for each term, that begin with so many bytes and have so many of their own.
    fn sought(self, head: usize, tail: usize) -> Sought
        ensures { result ≡ sought_for self head tail }
    {
        Sought {
            width: self.width,
            size: self.size,
            head,
            tail,
            count: self.count,
        }
    }
}

// Whether each of so many rows has a candidate.
fn all_taken(taken: &[usize], count: usize) -> bool
    requires { taken_size * count ≤ length taken.now }
    ensures { result ≡ all_taken count taken.now }
{
    for t in 0..count {
        if taken[TAKEN_SIZE * t] == 0 {
            return false;
        }
    }
    true
}

// Whether a candidate has a quorum of votes, its own among them, and a stamp.
fn is_electable(n: usize, mask: u16, candidate: usize, stamp: usize) -> bool
    requires { (0 < n) × (n ≤ replicas_most) × (0 < candidate) }
    ensures { result ≡ electable n mask candidate stamp }
{
    roster::quorum(n) <= u16::count_ones(mask) && roster::signer(mask, candidate) && stamp != 0
}

// Puts a candidate down for each term in which it will do.
fn settle(
    n: usize,
    candidate: usize,
    count: usize,
    voted: &[usize],
    stamped: &[usize],
    taken: &mut [usize],
)
    requires { (0 < n) × (n ≤ replicas_most) × (0 < candidate) × (candidate ≤ n)
        × (replicas_most * count ≤ length voted.now) × (replicas_most * count ≤ length stamped.now)
        × (taken_size * count ≤ length taken.old) }
    ensures rows { Settled n candidate voted.now stamped.now count
        taken.old taken.new }
    ensures room { length taken.new ≡ length taken.old }
{
    for t in 0..count {
        let row = REPLICAS_MOST * t;
        let votes = &voted[row..];
        let stamp = stamped[row + candidate - 1];
        let mask = assembly_copies::masks::mask_of(votes, n);
        if is_electable(n, mask, candidate, stamp) {
            assembly_copies::places::put_row(taken, TAKEN_SIZE * t, candidate, stamp, votes);
        }
    }
}

// The cells of a table with a row for each term.
const CELLS: usize = REPLICAS_MOST * LEADER_MOST;

// Finds the stamps of each replica on each term.
fn find_stamps(roster: &[u8], items: &[u8], stamps: &[u8], terms: Terms, stamped: &mut [usize])
    requires { Choosable roster.now items.now terms × (stamps_room terms.width ≤ length stamps.now)
        × (replicas_most * terms.count ≤ length stamped.old) }
    ensures stamps { (rs : List Run) → length rs ≡ terms.count
        → StampsIn (with_terms terms.width (cluster roster.now)) rs stamps.now
        → StampsPlaced roster.now items.now terms rs stamped.new }
    ensures placed { Placed terms.size items.now (replicas_most * terms.count)
        stamped.new }
    ensures room { length stamped.new ≡ length stamped.old }
{
    let tail = assembly_terms::stamp_tail(terms.width);
    let sought = terms.sought(assembly_terms::STAMP_HEAD, tail);
    assembly_copies::find_copies(roster, items, stamps, sought, stamped);
}

// Finds the votes for a candidate in each term; the votes' table is left for it.
fn find_votes(
    roster: &[u8],
    items: &[u8],
    votes: &mut [u8],
    terms: Terms,
    candidate: usize,
    voted: &mut [usize],
)
    requires { Choosable roster.now items.now terms × (votes_room terms.width ≤ length votes.old)
        × (candidate ≤ replicas_most) × (replicas_most * terms.count ≤ length voted.old) }
    ensures votes { (rs : List Run) (last : ℕ) → length rs ≡ terms.count
        → VotesIn (with_terms terms.width (cluster roster.now)) last rs votes.old
        → VotesIn (with_terms terms.width (cluster roster.now)) candidate rs votes.new
        × VotesPlaced roster.now items.now terms rs candidate voted.new }
    ensures placed { Placed terms.size items.now (replicas_most * terms.count)
        voted.new }
    ensures rooms { (length votes.new ≡ length votes.old)
        × (length voted.new ≡ length voted.old) }
{
    words::put_u16(votes, assembly_terms::CANDIDATE_AT, candidate as u16);
    let tail = assembly_terms::vote_tail(terms.width);
    let sought = terms.sought(assembly_terms::VOTE_HEAD, tail);
    assembly_copies::find_copies(roster, items, votes, sought, voted);
}

// Tries a candidate: finds its votes, and puts it down for each term in which it will do.
fn try_candidate(
    roster: &[u8],
    items: &[u8],
    votes: &mut [u8],
    stamped: &[usize],
    terms: Terms,
    candidate: usize,
    taken: &mut [usize],
)
    requires { Choosable roster.now items.now terms × (votes_room terms.width ≤ length votes.old)
        × (replicas_most * terms.count ≤ length stamped.now) × (0 < candidate)
        × (candidate ≤ replicas roster.now) × (taken_size * terms.count ≤ length taken.old)
        × Placed terms.size items.now (replicas_most * terms.count) stamped.now
        × RowsHeld terms.size items.now (replicas roster.now) terms.count taken.old }
    ensures votes { (rs : List Run) (last : ℕ) → length rs ≡ terms.count
        → VotesIn (with_terms terms.width (cluster roster.now)) last rs votes.old
        → VotesIn (with_terms terms.width (cluster roster.now)) candidate rs
        votes.new }
    ensures tried { (rs : List Run) (last : ℕ) → length rs ≡ terms.count
        → VotesIn (with_terms terms.width (cluster roster.now)) last rs votes.old
        → StampsPlaced roster.now items.now terms rs stamped.now
        → Tried roster.now items.now terms rs candidate taken.old
        → Tried roster.now items.now terms rs (candidate - 1) taken.new }
    ensures held { RowsHeld terms.size items.now (replicas roster.now)
        terms.count taken.new }
    ensures rooms { (length votes.new ≡ length votes.old)
        × (length taken.new ≡ length taken.old) }
{
    let mut voted = [0usize; CELLS];
    find_votes(roster, items, votes, terms, candidate, &mut voted);
    settle(
        roster::replicas(roster),
        candidate,
        terms.count,
        &voted,
        stamped,
        taken,
    );
}

// Tries all candidates, from n down.
fn try_all(
    roster: &[u8],
    items: &[u8],
    votes: &mut [u8],
    stamped: &[usize],
    terms: Terms,
    taken: &mut [usize],
)
    requires { Choosable roster.now items.now terms × (votes_room terms.width ≤ length votes.old)
        × (replicas_most * terms.count ≤ length stamped.now)
        × (taken_size * terms.count ≤ length taken.old)
        × Placed terms.size items.now (replicas_most * terms.count) stamped.now
        × RowsHeld terms.size items.now (replicas roster.now) terms.count taken.old }
    ensures votes { (rs : List Run) → length rs ≡ terms.count
        → VotesIn (with_terms terms.width (cluster roster.now)) 0 rs votes.old
        → VotesIn (with_terms terms.width (cluster roster.now)) 1 rs votes.new }
    ensures tried { (rs : List Run) → length rs ≡ terms.count
        → VotesIn (with_terms terms.width (cluster roster.now)) 0 rs votes.old
        → StampsPlaced roster.now items.now terms rs stamped.now
        → Tried roster.now items.now terms rs (replicas roster.now)
        taken.old
        → Tried roster.now items.now terms rs 0 taken.new }
    ensures held { RowsHeld terms.size items.now (replicas roster.now)
        terms.count taken.new }
    ensures rooms { (length votes.new ≡ length votes.old)
        × (length taken.new ≡ length taken.old) }
{
    for candidate in (1..=roster::replicas(roster)).rev() {
        try_candidate(roster, items, votes, stamped, terms, candidate, taken);
    }
}

// Chooses the leaders from the tables of votes, for candidate 0, and of stamps; puts a row down for each
// term: candidate, place of the stamp, places of the votes. Gives whether every term has one. The votes'
// table is left for candidate 1.
pub fn choose(
    roster: &[u8],
    items: &[u8],
    votes: &mut [u8],
    stamps: &[u8],
    terms: Terms,
    taken: &mut [usize],
) -> bool
    requires { Choosable roster.now items.now terms × (votes_room terms.width ≤ length votes.old)
        × (stamps_room terms.width ≤ length stamps.now)
        × (taken_size * terms.count ≤ length taken.old) }
    ensures leaders { LeadersChosen roster.now items.now votes.old
        stamps.now terms result taken.new }
    ensures held { RowsHeld terms.size items.now (replicas roster.now)
        terms.count taken.new }
    ensures votes { (rs : List Run) → length rs ≡ terms.count
        → VotesIn (with_terms terms.width (cluster roster.now)) 0 rs votes.old
        → VotesIn (with_terms terms.width (cluster roster.now)) 1 rs votes.new }
    ensures rooms { (length votes.new ≡ length votes.old)
        × (length taken.new ≡ length taken.old) }
{
    let count = terms.count;
    let mut stamped = [0usize; CELLS];
    find_stamps(roster, items, stamps, terms, &mut stamped);
    assembly_copies::clear(taken, TAKEN_SIZE * count);
    try_all(roster, items, votes, &stamped, terms, taken);
    all_taken(taken, count)
}
