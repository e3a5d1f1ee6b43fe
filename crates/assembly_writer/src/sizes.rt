// How many bytes an assembled submission has, from the rows alone (document 02, W3).
ghost use Rattle.std.specs.Prelude.{◌≡◌, List, ℕ, ◌+◌, ◌-◌, ◌*◌, ◌≤◌, length, get_or, drop};
ghost use Rattle.words.specs.Widths.{width_most};
ghost use Rattle.roster.specs.Sizes.{replicas_most, signature_most};
ghost use Rattle.submission.specs.Validate.{leader_most};
ghost use Rattle.assembly_copies.specs.Rows.{taken_size};
ghost use Rattle.assembly_terms.specs.Wanted.{vote_head, vote_tail};
ghost use Rattle.assembly_writer.specs.Parts.{signature_at, signed_at, certificate_in};
ghost use Rattle.assembly_writer.specs.Parts.{leaders_part, stamps_part, commit_part};
ghost use Rattle.assembly_writer.specs.Parts.{signed_most, lead_most, commit_most};
ghost use Rattle.assembly_writer.specs.Parts.{PlacesHeld, RowsInside};
ghost use Rattle.assembly_writer.specs.Written.{Planned, bytes_taken};

use super::Plan;
use assembly_copies::{PLACES_AT, STAMP_AT, TAKEN_SIZE};
use submission_trailer::TRAILER_SIZE;

// The bytes of the signers of n replicas and of their signatures.
fn signed_size(size: usize, n: usize, places: &[usize]) -> usize
    requires { (size ≤ signature_most) × (n ≤ replicas_most) × (n ≤ length places.now) }
    ensures size { (items : List ℕ) → PlacesHeld size items n places.now
        → result ≡ length (signed_at size items n places.now) }
    ensures most { result ≤ signed_most }
{
    let count = u16::count_ones(assembly_copies::masks::mask_of(places, n)) as usize;
    submission::SIGNERS_SIZE + size * count
}

// The bytes of the signature at a place: none at place 0.
fn signature_size(size: usize, place: usize) -> usize
    requires { size ≤ signature_most }
    ensures size { (items : List ℕ) → place ≤ length items - size
        → result ≡ length (signature_at size items place) }
    ensures most { result ≤ signature_most }
{
    if place == 0 { 0 } else { size }
}

// The bytes of the certificate and of the stamp of a row.
fn lead_size(row: &[usize], plan: Plan) -> usize
    requires { (plan.width ≤ width_most) × (plan.size ≤ signature_most) × (plan.replicas ≤ replicas_most)
        × (taken_size ≤ length row.now) }
    ensures size { (items end : List ℕ)
        → PlacesHeld plan.size items plan.replicas (drop 2 row.now)
        → get_or row.now 1 0 ≤ length items - plan.size → length end ≡ vote_tail plan.width
        → result ≡ length (certificate_in plan.size items plan.replicas end row.now)
        + length (signature_at plan.size items (get_or row.now 1 0)) }
    ensures most { result ≤ lead_most }
{
    let stamp = signature_size(plan.size, row[STAMP_AT]);
    let signed = signed_size(plan.size, plan.replicas, &row[PLACES_AT..]);
    submission::ballot_size(plan.width) + signed + stamp
}

// The bytes of the commit certificate of a row: none with index 0.
fn commit_size(row: &[usize], plan: Plan) -> usize
    requires { (plan.size ≤ signature_most) × (plan.replicas ≤ replicas_most)
        × (taken_size ≤ length row.now) }
    ensures size { (items : List ℕ)
        → PlacesHeld plan.size items plan.replicas (drop 2 row.now)
        → result ≡ length (commit_part plan.size items plan.replicas row.now) }
    ensures most { result ≤ commit_most }
{
    if row[0] == 0 {
        return 0;
    }
    submission::COMMIT_SIGNERS_AT + signed_size(plan.size, plan.replicas, &row[PLACES_AT..])
}

// The bytes of the certificates and stamps of all rows.
fn leads_size(plan: Plan, taken: &[usize]) -> usize
    requires { (plan.width ≤ width_most) × (plan.size ≤ signature_most) × (plan.replicas ≤ replicas_most)
        × (plan.leaders ≤ leader_most) × (taken_size * plan.leaders ≤ length taken.now) }
    ensures size { (items votes : List ℕ) → RowsInside items plan taken.now
        → vote_head + vote_tail plan.width * plan.leaders ≤ length votes
        → result ≡ length (leaders_part items plan votes taken.now)
        + length (stamps_part items plan taken.now) }
    ensures most { result ≤ lead_most * plan.leaders }
{
    let mut at = 0;
    for t in 0..plan.leaders {
        let row = TAKEN_SIZE * t;
        let row_end = row + TAKEN_SIZE;
        at += lead_size(&taken[row..row_end], plan);
    }
    at
}

// The bytes of what is to be written, from the rows.
pub fn written_size(log: &[u8], plan: Plan, taken: &[usize]) -> usize
    requires { (plan.width ≤ width_most) × (plan.size ≤ signature_most) × (plan.replicas ≤ replicas_most)
        × (plan.leaders ≤ leader_most) × (taken_size * (plan.leaders + 1) ≤ length taken.now) }
    ensures { (roster items votes : List ℕ)
        → Planned roster log.now items votes plan taken.now
        → result ≡ length (bytes_taken roster log.now items plan taken.now) }
{
    let row = TAKEN_SIZE * plan.leaders;
    let leads = leads_size(plan, taken);
    let commit = commit_size(&taken[row..], plan);
    log.len() + leads + commit + TRAILER_SIZE
}
