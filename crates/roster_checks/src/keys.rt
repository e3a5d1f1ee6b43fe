// The keys of a roster: no replica has that of another (document 01, "What stops an audit", number 4).
ghost use Rattle.std.specs.Prelude.{◌≡◌, not, ◌+◌, ◌*◌, ◌≤◌, ◌<◌, length};
ghost use Rattle.words.specs.BigEndian.{same};
ghost use Rattle.lm_format.specs.Format.{key_size};
ghost use Rattle.roster.specs.Roster as paper;

// Whether the keys of two replicas differ.
fn differ(roster: &[u8], j: usize, k: usize) -> bool
    requires { (0 < j) × (j ≤ k) × (paper.head_size + key_size * k ≤ length roster.now) }
    ensures { result
        ≡ not (same (paper.key_of roster.now j) (paper.key_of roster.now k)) }
{
    roster::key_of(roster, j) != roster::key_of(roster, k)
}

// Whether replica k's key is not that of a replica before it.
pub fn single(roster: &[u8], k: usize) -> bool
    requires { (0 < k) × (paper.head_size + key_size * k ≤ length roster.now) }
    ensures { result ≡ paper.single roster.now k }
{
    super::every_replica(k - 1, |j| differ(roster, j, k))
}
