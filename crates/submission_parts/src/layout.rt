// Where the parts of a submission stand (document 01, "A submission, read from its trailer", and "What stops
// an audit", 9), over the term's width.
ghost use Rattle.std.specs.Prelude.{◌≡◌, true, ◌+◌, ◌-◌, ◌*◌, ◌≤◌, length};
ghost use Rattle.words.specs.Widths.{width_most};
ghost use Rattle.refusal.specs.Checks.{all};
ghost use Rattle.submission.specs.Trailer.{trailer_size, trailer_at, record_count, distance};
ghost use Rattle.log_chain.specs.Records.{record_size};
ghost use Rattle.submission.specs.Reading as paper;
ghost use Rattle.submission_parts.specs.Reader.{signature_most};
ghost use Rattle.submission_parts.specs.Parts.{Bounds, commit_tests, leader_tests};
ghost use Rattle.submission_parts.specs.Shapes.{shape_of};
ghost use Rattle.submission.specs.Validate.{submission_most, record_most, leader_most};

use super::Shape;

// Whether part 4, which begins at a place, stands where its distance says and ends at the trailer.
fn commit_stands(s: &[u8], from: usize, size: usize) -> bool
    requires { (trailer_size ≤ length s.now) × (length s.now ≤ submission_most) × (size ≤ signature_most)
        × (from ≤ submission_most + leader_most * signature_most) }
    ensures { result ≡ all (commit_tests size s.now from) }
{
    let end = submission_trailer::trailer_at(s);
    let back = submission_trailer::distance(s, 4);
    if from + back != end {
        return false;
    }
    if back == 0 {
        return true;
    }
    // Tried as one expression with `is_some_and` and with `matches!`: the closure's clause and the guard's
    // test are not to be cited in a proof.
    let Some((_, next)) = super::read_commit(s, from, end, size) else {
        return false;
    };
    next == end
}

// Whether part 3 stands where its distance says, for part 2 at a place, and part 4 after it.
fn leaders_stand(s: &[u8], from: usize, width: usize, size: usize) -> bool
    requires { Bounds width size s.now × (from ≤ trailer_at s.now) }
    ensures { result ≡ all (leader_tests width size s.now from) }
{
    let end = submission_trailer::trailer_at(s);
    let leaders = submission_trailer::leader_count(s);
    let Some(stamps) = super::place_after(s, leaders, from, end, width, size) else {
        return false;
    };
    stamps + submission_trailer::distance(s, 3) == end
        && commit_stands(s, stamps + leaders * size, size)
}

// The place of part 2, after the records.
pub fn leaders_from(s: &[u8], width: usize) -> usize
    requires { (trailer_size ≤ length s.now) × (record_count s.now ≤ record_most)
        × (width ≤ width_most) }
    ensures { result ≡ record_size width * record_count s.now }
{
    log_chain::record_size(width) * submission_trailer::record_count(s)
}

// The place of part 3, by its distance.
fn stamps_from(s: &[u8]) -> usize
    requires { (trailer_size ≤ length s.now) × (distance s.now 3 ≤ trailer_at s.now) }
    ensures { result ≡ trailer_at s.now - distance s.now 3 }
{
    submission_trailer::trailer_at(s) - submission_trailer::distance(s, 3)
}

// 9: whether each part begins where its distance says, and ends where the next begins.
pub fn parts_laid_out(s: &[u8], width: usize, size: usize) -> bool
    requires { Bounds width size s.now }
    ensures { result ≡ paper.laid_out width size s.now }
{
    let end = submission_trailer::trailer_at(s);
    let from = leaders_from(s, width);
    submission_trailer::distance(s, 1) == end
        && from + submission_trailer::distance(s, 2) == end
        && leaders_stand(s, from, width, size)
}

// The shape of a laid-out submission.
pub fn shape_of(s: &[u8], width: usize, size: usize) -> Shape
    requires { Bounds width size s.now × (paper.laid_out width size s.now ≡ true) }
    ensures { result ≡ shape_of width size s.now }
{
    Shape {
        width,
        size,
        records: submission_trailer::record_count(s),
        leaders: submission_trailer::leader_count(s),
        from: leaders_from(s, width),
        stamps: stamps_from(s),
    }
}
