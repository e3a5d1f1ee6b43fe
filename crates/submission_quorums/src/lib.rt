// The signers of certificates (document 01, "What stops an audit", 10), over the term's width.
#![tactic(auto)]

ghost use Rattle.std.specs.Prelude.{◌≡◌, true, ◌≤◌, ◌<◌, length};
ghost use Rattle.words.specs.Widths.{width_most};
ghost use Rattle.refusal.specs.Checks.{every};
ghost use Rattle.submission.specs.Reading.{certificates_end, commit_of, view, laid_out};
ghost use Rattle.submission_parts.specs.Reader.{signature_most};
ghost use Rattle.submission_parts.specs.Parts.{Bounds};
ghost use Rattle.submission_quorums.specs.Signers.{leader_masks};
ghost use Rattle.submission.specs.Validate as paper;

// Whether a mask has a quorum of n replicas, and no bit above replica n.
pub fn mask_quorate(n: usize, mask: u16) -> bool
    requires { (0 < n) × (n ≤ 9) }
    ensures { result ≡ paper.quorate n mask }
{
    roster::quorum(n) <= u16::count_ones(mask) && (mask as u32) < 1 << n
}

// Whether each of so many leader certificates from a place on has a quorum of signers. All of them lie before
// `end`, so that no reading is refused.
fn leaders_quorate(
    s: &[u8],
    n: usize,
    count: usize,
    from: usize,
    end: usize,
    width: usize,
    size: usize,
) -> bool
    requires { (0 < n) × (n ≤ 9) × (end ≤ length s.now) × (length s.now ≤ paper.submission_most)
        × (width ≤ width_most) × (size ≤ signature_most)
        × (certificates_end width size s.now count from ≤ end) }
    ensures { result ≡ every (paper.quorate n) (leader_masks width size s.now count from) }
{
    let mut at = from;
    for _ in 0..count {
        let Some((c, next)) = submission_parts::read(s, at, end, width, size) else {
            return false;
        };
        if !mask_quorate(n, c.signers) {
            return false;
        }
        at = next;
    }
    true
}

// Whether the commit certificate, where there is one, has a quorum of signers.
fn commit_quorate(s: &[u8], n: usize, width: usize, size: usize) -> bool
    requires { (0 < n) × (n ≤ 9) × Bounds width size s.now × (laid_out width size s.now ≡ true) }
    ensures { result
        ≡ every (paper.quorate n) (paper.commit_signers (commit_of width size s.now)) }
{
    let Some((commit, _)) = submission_parts::commit_part(s, width, size) else {
        return true;
    };
    mask_quorate(n, commit.signers)
}

// 10: whether every certificate has a quorum of signers, and no signer above replica n.
pub fn all_signers_quorate(s: &[u8], n: usize, width: usize, size: usize) -> bool
    requires { (0 < n) × (n ≤ 9) × Bounds width size s.now × (laid_out width size s.now ≡ true) }
    ensures { result ≡ every (paper.quorate n) (paper.masks (view width size s.now)) }
{
    let end = submission_trailer::trailer_at(s);
    let from = submission_parts::layout::leaders_from(s, width);
    let leaders = submission_trailer::leader_count(s);
    leaders_quorate(s, n, leaders, from, end, width, size) && commit_quorate(s, n, width, size)
}
