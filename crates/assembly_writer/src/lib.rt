// The writer of an assembled submission (document 02, W3): parts in order, each into the part of the output
// that begins where the last one ended.
#![tactic(auto)]

ghost use Rattle.std.specs.Prelude.{◌≡◌, ◌+◌, ◌-◌, ◌*◌, ◌≤◌, ◌<◌, length, get_or, drop};
ghost use Rattle.words.specs.Over.{over};
ghost use Rattle.assembly_copies.specs.Rows.{taken_size};
ghost use Rattle.assembly_terms.specs.Wanted.{vote_head, vote_tail};
ghost use Rattle.assembly_writer.specs.Parts.{signature_at, signatures_at, signed_at, certificate_in};
ghost use Rattle.assembly_writer.specs.Parts.{leaders_part, stamps_part, commit_part, certified_part};
ghost use Rattle.assembly_writer.specs.Parts.{SizesOf, PlacesHeld, RowsInside};
ghost use Rattle.assembly_writer.specs.Written.{Planned, bytes_taken};

use assembly_copies::{PLACES_AT, STAMP_AT, TAKEN_SIZE};

pub mod sizes;
mod trailer;

// What is to be written: the widths, and the numbers of replicas, records and leaders.
#[derive(Clone, Copy)]
pub struct Plan {
    pub width: usize,
    pub size: usize,
    pub replicas: usize,
    pub records: usize,
    pub leaders: usize,
}

// The bytes of parts 2 to 4: leader certificates, stamps, commit.
#[derive(Clone, Copy)]
struct PartSizes {
    leaders: usize,
    stamps: usize,
    commit: usize,
}

// Writes the signature at a place of the bag, nothing for place 0, and gives the number of its bytes.
fn put_signature(out: &mut [u8], items: &[u8], size: usize, place: usize) -> usize
    requires { (place ≤ length items.now - size)
        × (length (signature_at size items.now place) ≤ length out.old) }
    ensures size { result ≡ length (signature_at size items.now place) }
    ensures bytes { out.new
        ≡ over (signature_at size items.now place) out.old }
{
    if place == 0 {
        return 0;
    }
    let end = place + size;
    words::put_bytes(out, 0, &items[place..end]);
    size
}

// Writes the signatures of n replicas, and gives the number of their bytes.
fn put_signatures(out: &mut [u8], items: &[u8], size: usize, n: usize, places: &[usize]) -> usize
    requires { PlacesHeld size items.now n places.now
        × (length (signatures_at size items.now n places.now) ≤ length out.old) }
    ensures size { result ≡ length (signatures_at size items.now n places.now) }
    ensures bytes { out.new
        ≡ over (signatures_at size items.now n places.now) out.old }
{
    let mut at = 0;
    for k in 0..n {
        let rest = &mut out[at..];
        at += put_signature(rest, items, size, places[k]);
    }
    at
}

// Writes the signers of n replicas, then their signatures, and gives the number of their bytes.
fn put_signed(out: &mut [u8], items: &[u8], size: usize, n: usize, places: &[usize]) -> usize
    requires { PlacesHeld size items.now n places.now
        × (length (signed_at size items.now n places.now) ≤ length out.old) }
    ensures size { result ≡ length (signed_at size items.now n places.now) }
    ensures bytes { out.new
        ≡ over (signed_at size items.now n places.now) out.old }
{
    let at = submission::SIGNERS_SIZE;
    let signers = assembly_copies::masks::mask_of(places, n);
    words::put_u16(out, 0, signers);
    let rest = &mut out[at..];
    at + put_signatures(rest, items, size, n, places)
}

// Writes a leader certificate, from its row and the end of its vote, and gives the number of its bytes.
fn put_certificate(out: &mut [u8], items: &[u8], end: &[u8], row: &[usize], plan: Plan) -> usize
    requires { PlacesHeld plan.size items.now plan.replicas (drop 2 row.now)
        × (2 ≤ length row.now) × (get_or row.now 0 0 < 65536)
        × (length (certificate_in plan.size items.now plan.replicas end.now row.now)
        ≤ length out.old) }
    ensures size { result ≡ length (certificate_in plan.size items.now plan.replicas
        end.now row.now) }
    ensures bytes { out.new
        ≡ over (certificate_in plan.size items.now plan.replicas end.now
        row.now) out.old }
{
    let at = submission::TERM_AT + end.len();
    words::put_u16(out, 0, row[0] as u16);
    words::put_bytes(out, submission::TERM_AT, end);
    let rest = &mut out[at..];
    at + put_signed(rest, items, plan.size, plan.replicas, &row[PLACES_AT..])
}

// Writes the leader certificates, a row and the end of a vote for each, and gives the number of their bytes.
fn put_leaders(out: &mut [u8], items: &[u8], votes: &[u8], plan: Plan, taken: &[usize]) -> usize
    requires { RowsInside items.now plan taken.now
        × (vote_head + vote_tail plan.width * plan.leaders ≤ length votes.now)
        × (length (leaders_part items.now plan votes.now taken.now) ≤ length out.old) }
    ensures size { result
        ≡ length (leaders_part items.now plan votes.now taken.now) }
    ensures bytes { out.new
        ≡ over (leaders_part items.now plan votes.now taken.now)
        out.old }
{
    let tail = assembly_terms::vote_tail(plan.width);
    let mut at = 0;
    for t in 0..plan.leaders {
        let vote = assembly_terms::VOTE_HEAD + tail * t;
        let vote_end = vote + tail;
        let row = TAKEN_SIZE * t;
        let row_end = row + TAKEN_SIZE;
        let rest = &mut out[at..];
        let size = put_certificate(
            rest,
            items,
            &votes[vote..vote_end],
            &taken[row..row_end],
            plan,
        );
        at += size;
    }
    at
}

// Writes the stamps' signatures, and gives the number of their bytes.
fn put_stamps(out: &mut [u8], items: &[u8], plan: Plan, taken: &[usize]) -> usize
    requires { RowsInside items.now plan taken.now
        × (length (stamps_part items.now plan taken.now) ≤ length out.old) }
    ensures size { result ≡ length (stamps_part items.now plan taken.now) }
    ensures bytes { out.new
        ≡ over (stamps_part items.now plan taken.now) out.old }
{
    let mut at = 0;
    for t in 0..plan.leaders {
        let rest = &mut out[at..];
        at += put_signature(rest, items, plan.size, taken[TAKEN_SIZE * t + STAMP_AT]);
    }
    at
}

// Writes the commit certificate from its row, nothing with index 0, and gives the number of its bytes.
fn put_commit(out: &mut [u8], items: &[u8], row: &[usize], plan: Plan) -> usize
    requires { PlacesHeld plan.size items.now plan.replicas (drop 2 row.now)
        × (2 ≤ length row.now) × (get_or row.now 0 0 < 4294967296)
        × (length (commit_part plan.size items.now plan.replicas row.now) ≤ length out.old) }
    ensures size { result
        ≡ length (commit_part plan.size items.now plan.replicas row.now) }
    ensures bytes { out.new
        ≡ over (commit_part plan.size items.now plan.replicas row.now)
        out.old }
{
    let index = row[0];
    if index == 0 {
        return 0;
    }
    let at = submission::COMMIT_SIGNERS_AT;
    words::put_u32(out, 0, index as u32);
    let rest = &mut out[at..];
    at + put_signed(rest, items, plan.size, plan.replicas, &row[PLACES_AT..])
}

// Writes parts 2 to 4, and gives the number of bytes of each.
fn put_certified(
    out: &mut [u8],
    items: &[u8],
    votes: &[u8],
    plan: Plan,
    taken: &[usize],
) -> PartSizes
    requires { RowsInside items.now plan taken.now
        × (vote_head + vote_tail plan.width * plan.leaders ≤ length votes.now)
        × (get_or taken.now (taken_size * plan.leaders) 0 < 4294967296)
        × (length (certified_part items.now plan votes.now taken.now) ≤ length out.old) }
    ensures sizes { SizesOf items.now plan votes.now taken.now result }
    ensures bytes { out.new
        ≡ over (certified_part items.now plan votes.now taken.now)
        out.old }
{
    let row = TAKEN_SIZE * plan.leaders;
    let leaders = put_leaders(out, items, votes, plan, taken);
    let second = &mut out[leaders..];
    let stamps = put_stamps(second, items, plan, taken);
    let at = leaders + stamps;
    let third = &mut out[at..];
    let commit = put_commit(third, items, &taken[row..], plan);
    PartSizes {
        leaders,
        stamps,
        commit,
    }
}

// Writes the submission that the rows stand for, and gives the number of its bytes.
pub fn write(
    out: &mut [u8],
    roster: &[u8],
    log: &[u8],
    items: &[u8],
    votes: &[u8],
    plan: Plan,
    taken: &[usize],
) -> usize
    requires { Planned roster.now log.now items.now votes.now plan taken.now
        × (length (bytes_taken roster.now log.now items.now plan taken.now) ≤ length out.old) }
    ensures size { result ≡ length (bytes_taken roster.now log.now items.now
        plan taken.now) }
    ensures bytes { out.new
        ≡ over (bytes_taken roster.now log.now items.now plan
        taken.now) out.old }
{
    let first = log.len();
    words::put_bytes(out, 0, log);
    let rest = &mut out[first..];
    let sizes = put_certified(rest, items, votes, plan, taken);
    let fields = trailer::trailer_fields(plan, first, sizes);
    let at = first + (sizes.leaders + (sizes.stamps + sizes.commit));
    let end = &mut out[at..];
    at + trailer::put_trailer(end, &roster[0..roster::NAME_SIZE], fields)
}
