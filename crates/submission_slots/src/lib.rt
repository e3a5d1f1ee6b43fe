// The signatures of one certificate under the roster's keys (document 01, "What stops an audit", number 15).
#![tactic(auto)]

ghost use Rattle.std.specs.Prelude.{◌≡◌, ◌+◌, ◌*◌, ◌^◌, ◌≤◌, ◌<◌, length, drop};
ghost use Rattle.std.specs.Int.Count.{ones};
ghost use Rattle.sha256.specs.Service.{limit};
ghost use Rattle.lm_format.specs.Format.{key_size};
ghost use Rattle.lms.specs.Check.{good};
ghost use Rattle.roster.specs.Roster.{head_size, replicas, key_of, roster_number};
ghost use Rattle.roster.specs.Masks.{replicas_of};
ghost use Rattle.submission_slots.specs.Signatures.{good_all};

use lm_answer::Answer;

// Whether a signature is replica k's on a message.
pub fn signature_genuine(roster: &[u8], k: usize, message: &[u8], signature: &[u8]) -> bool
    requires { (0 < k) × (head_size + key_size * k ≤ length roster.now) × (length message.now ≤ limit) }
    ensures { result ≡ good (key_of roster.now k) message.now
        signature.now }
{
    match lms::check(roster::key_of(roster, k), message, signature) {
        Answer::Good(_, _) => true,
        Answer::Bad(_) => false,
        Answer::Long => false,
    }
}

// Whether the signatures from a place on are those of a mask's replicas on a message, one each.
pub fn certificate_signatures_good(
    roster: &[u8],
    message: &[u8],
    mask: u16,
    s: &[u8],
    at: usize,
    size: usize,
) -> bool
    requires { (roster_number roster.now ≡ 0) × (length message.now ≤ limit)
        × (mask < 2 ^ replicas roster.now)
        × (at + size * ones mask ≤ length s.now) }
    ensures { result ≡ good_all roster.now message.now size (replicas_of mask)
        (drop at s.now) }
{
    let mut from = at;
    for k in 0..roster::MASK_BITS {
        if roster::signer(mask, k + 1) {
            let end = from + size;
            if !signature_genuine(roster, k + 1, message, &s[from..end]) {
                return false;
            }
            from = end;
        }
    }
    true
}
