// The trailer: the last 44 bytes (document 01, "A submission, read from its trailer", part 5), and the checks
// on it ("What stops an audit", 5 to 8).
#![tactic(auto)]

ghost use Rattle.std.specs.Prelude.{◌≡◌, ◌≤◌, ◌<◌, length};
ghost use Rattle.roster.specs.Roster.{name_size, cluster};
ghost use Rattle.submission.specs.Trailer as fields;
ghost use Rattle.submission.specs.Validate as paper;

pub const TRAILER_SIZE: usize = 44;

// The most bytes, records and terms.
const SUBMISSION_MOST: usize = 2097152;

pub const RECORD_MOST: usize = 4096;

pub const LEADER_MOST: usize = 64;

// The version of this paper, and the bytes of a term in it.
pub const VERSION: u32 = 1;

pub const TERM_SIZE: usize = 4;

// The trailer's first byte. (A type of bytes that have a trailer would ask more of callers here and in
// `distance`, which docs/ names.)
pub fn trailer_at(s: &[u8]) -> usize
    requires { fields.trailer_size ≤ length s.now }
    ensures { result ≡ fields.trailer_at s.now }
{
    s.len() - TRAILER_SIZE
}

// Number i after the name, from 0.
fn word(s: &[u8], i: usize) -> u32
    requires { (fields.trailer_size ≤ length s.now) × (i < 7) }
    ensures { (result ≡ fields.word s.now i) × (result < 4294967296) }
{
    words::u32_at(s, trailer_at(s) + roster::NAME_SIZE + 4 * i)
}

// H.
pub fn record_count(s: &[u8]) -> usize
    requires { fields.trailer_size ≤ length s.now }
    ensures { (result ≡ fields.record_count s.now) × (result < 4294967296) }
{
    word(s, 0) as usize
}

// L.
pub fn leader_count(s: &[u8]) -> usize
    requires { fields.trailer_size ≤ length s.now }
    ensures { (result ≡ fields.leader_count s.now) × (result < 4294967296) }
{
    word(s, 1) as usize
}

// The distance back to part 1, 2, 3 or 4.
pub fn distance(s: &[u8], part: usize) -> usize
    requires { (fields.trailer_size ≤ length s.now) × (part ≤ 4) }
    ensures { (result ≡ fields.distance s.now part) × (result < 4294967296) }
{
    word(s, 1 + part) as usize
}

// The version.
pub fn version(s: &[u8]) -> u32
    requires { fields.trailer_size ≤ length s.now }
    ensures { result ≡ fields.version s.now }
{
    word(s, 6)
}

// 5: whether there are 44 to 2,097,152 bytes.
pub fn size_in_range(s: &[u8]) -> bool
    ensures { result ≡ paper.sized s.now }
{
    TRAILER_SIZE <= s.len() && s.len() <= SUBMISSION_MOST
}

// 6: whether the version is 1.
pub fn version_known(s: &[u8]) -> bool
    requires { fields.trailer_size ≤ length s.now }
    ensures { result ≡ paper.versioned s.now }
{
    version(s) == VERSION
}

// 7: whether the name is the roster's.
pub fn name_matches(roster: &[u8], s: &[u8]) -> bool
    requires { (name_size ≤ length roster.now) × (fields.trailer_size ≤ length s.now) }
    ensures { result ≡ paper.named (cluster roster.now) s.now }
{
    let at = trailer_at(s);
    s[at..at + roster::NAME_SIZE] == roster[..roster::NAME_SIZE]
}

// 8: whether H is not above 4,096, and L not above 64.
pub fn counts_in_range(s: &[u8]) -> bool
    requires { fields.trailer_size ≤ length s.now }
    ensures { result ≡ paper.counted s.now }
{
    record_count(s) <= RECORD_MOST && leader_count(s) <= LEADER_MOST
}
