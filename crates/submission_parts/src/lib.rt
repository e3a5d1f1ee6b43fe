// The parts of a submission (document 01, "A submission, read from its trailer"; "What stops an audit", 9):
// the readers of certificates, which give the fields with the next place, or a refusal where the certificate
// does not lie before an end; the commit certificate, or none; and, in `layout`, where the parts stand. Over
// the term's width.
#![tactic(auto)]

ghost use Rattle.std.specs.Prelude.{◌≡◌, true, ◌+◌, ◌*◌, ◌≤◌, length};
ghost use Rattle.std.specs.Int.Count.{ones};
ghost use Rattle.words.specs.Widths.{width_most};
ghost use Rattle.submission.specs.Reading.{certificate_end, certificates_end, commit_end, commit_of};
ghost use Rattle.submission.specs.Reading.{laid_out};
ghost use Rattle.submission.specs.Validate.{submission_most};
ghost use Rattle.submission_parts.specs.Reader as inner;
ghost use Rattle.submission_parts.specs.Parts.{Bounds};
ghost use Rattle.submission_parts.specs.Commits.{commit_part, commit_index};

use submission::{COMMIT_FIELDS_SIZE, COMMIT_SIGNERS_AT, SIGNERS_SIZE, TERM_AT};

pub mod layout;

// The numbers of a leader certificate.
#[derive(Clone, Copy)]
pub struct Certificate {
    pub candidate: u16,
    pub term: u64,
    pub last_term: u64,
    pub last_index: u32,
    pub signers: u16,
}

// The numbers of a commit certificate.
#[derive(Clone, Copy)]
pub struct Commit {
    pub index: u32,
    pub signers: u16,
}

// What check 9 leaves known of a submission: its widths, its counts, and where parts 2 and 3 stand. The bytes
// stand beside it, or beside the two widths, and contracts say `Bounds`, `Known` or `Checked` of them: a type
// with these as its invariant would ask more of callers of `commit_part`, `gather`, `tenure_at` (docs/).
#[derive(Clone, Copy)]
pub struct Shape {
    pub width: usize,
    pub size: usize,
    pub records: usize,
    pub leaders: usize,
    pub from: usize,
    pub stamps: usize,
}

// The bytes of a mask's signatures: one for each of the ones among its sixteen bits.
fn signatures_size(mask: u16, size: usize) -> usize
    requires { size ≤ inner.signature_most }
    ensures { (result ≡ size * ones mask) × (result ≤ 16 * inner.signature_most) }
{
    size * (u16::count_ones(mask) as usize)
}

// The place after a leader certificate that lies inside.
pub fn certificate_end(s: &[u8], at: usize, width: usize, size: usize) -> usize
    requires { (width ≤ width_most) × (certificate_end width size s.now at ≤ length s.now) }
    ensures { result ≡ certificate_end width size s.now at }
{
    let fields = at + submission::ballot_size(width);
    let signers = words::u16_at(s, fields);
    fields + SIGNERS_SIZE + size * (u16::count_ones(signers) as usize)
}

// The leader certificate at a place, with the next place; none where it does not lie before the end.
pub fn read(
    s: &[u8],
    at: usize,
    end: usize,
    width: usize,
    size: usize,
) -> Option<(Certificate, usize)>
    requires { (at ≤ end) × (end ≤ length s.now) × (length s.now ≤ submission_most)
        × (width ≤ width_most) × (size ≤ inner.signature_most) }
    ensures { (result ≡ inner.reading width size s.now at end)
        × (inner.answer_number result ≡ inner.end_number (certificate_end width size s.now at) end) }
{
    let fields = at + submission::ballot_size(width);
    if end < fields + SIGNERS_SIZE {
        return None;
    }
    let signers = words::u16_at(s, fields);
    let next = fields + SIGNERS_SIZE + signatures_size(signers, size);
    if end < next {
        return None;
    }
    Some((numbers_at(s, at, width), next))
}

// The numbers of the leader certificate at a place.
pub fn numbers_at(s: &[u8], at: usize, width: usize) -> Certificate
    requires { (at + inner.fields_size width ≤ length s.now) × (length s.now ≤ submission_most)
        × (width ≤ width_most) }
    ensures { result ≡ inner.numbers_at width s.now at }
{
    let last_term = at + TERM_AT + width;
    let fields = at + submission::ballot_size(width);
    Certificate {
        candidate: words::u16_at(s, at),
        term: words::number_at(s, at + TERM_AT, width),
        last_term: words::number_at(s, last_term, width),
        last_index: words::u32_at(s, last_term + width),
        signers: words::u16_at(s, fields),
    }
}

// The place after so many leader certificates from a place on; none where they do not lie before the end.
pub fn place_after(
    s: &[u8],
    count: usize,
    from: usize,
    end: usize,
    width: usize,
    size: usize,
) -> Option<usize>
    requires { (from ≤ end) × (end ≤ length s.now) × (length s.now ≤ submission_most)
        × (width ≤ width_most) × (size ≤ inner.signature_most) }
    ensures { (result ≡ inner.place_after width size s.now count from end)
        × (inner.answer_number result
        ≡ inner.end_number (certificates_end width size s.now count from) end) }
{
    let mut at = from;
    for _ in 0..count {
        let (_, next) = read(s, at, end, width, size)?;
        at = next;
    }
    Some(at)
}

// The commit certificate at a place, with the next place; none where it does not lie before the end.
pub fn read_commit(s: &[u8], at: usize, end: usize, size: usize) -> Option<(Commit, usize)>
    requires { (at ≤ end) × (end ≤ length s.now) × (length s.now ≤ submission_most)
        × (size ≤ inner.signature_most) }
    ensures { (result ≡ inner.commit_reading size s.now at end)
        × (inner.answer_number result ≡ inner.end_number (commit_end size s.now at) end) }
{
    if end < at + COMMIT_FIELDS_SIZE {
        return None;
    }
    let index = words::u32_at(s, at);
    let signers = words::u16_at(s, at + COMMIT_SIGNERS_AT);
    let next = at + COMMIT_FIELDS_SIZE + signatures_size(signers, size);
    if end < next {
        return None;
    }
    Some((Commit { index, signers }, next))
}

// The commit certificate of a laid-out submission with its place, where there is one. Check 9 has read it
// before, and handed a refusal up (`layout::commit_stands`): here the proof shows that none comes.
pub fn commit_part(s: &[u8], width: usize, size: usize) -> Option<(Commit, usize)>
    requires { Bounds width size s.now × (laid_out width size s.now ≡ true) }
    ensures { result ≡ commit_part width size s.now }
{
    let back = submission_trailer::distance(s, 4);
    if back == 0 {
        return None;
    }
    let end = submission_trailer::trailer_at(s);
    let at = end - back;
    let (numbers, _) = read_commit(s, at, end, size)?;
    Some((numbers, at))
}

// The index of a laid-out submission's commit certificate, 0 where there is none, as in the definition.
pub fn commit_index(s: &[u8], width: usize, size: usize) -> usize
    requires { Bounds width size s.now × (laid_out width size s.now ≡ true) }
    ensures { result ≡ commit_index (commit_of width size s.now) }
{
    let Some((c, _)) = commit_part(s, width, size) else {
        return 0;
    };
    c.index as usize
}
