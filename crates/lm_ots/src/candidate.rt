// The public key candidate of a one-time signature (RFC 8554, 4.6, algorithm 4b).
ghost use Rattle.std.specs.Prelude.{◌≡◌, ◌+◌, ◌*◌, ◌≤◌, ◌<◌, length, take, drop};
ghost use Rattle.sha256.specs.Service.{limit};
ghost use Rattle.sha256.specs.Sha256.{bytes_of};
ghost use Rattle.lm_hash.specs.Identifier.{identifier};
ghost use Rattle.lm_digits.specs.Listed.{Listed, checked_size};
ghost use Rattle.lm_digits.specs.Digits.{steps};
ghost use Rattle.lm_ots.specs.Candidate as rfc;

use super::walk;
use lm_digits::{CHAINS_MOST, Parameters, WithSteps, digits};
use lm_hash::Leaf;
use sha256::State;

// What sets the hash of a one-time public key apart (RFC 8554, 4.3).
const D_PBLC: u32 = 0x8080;

// What sets the hash of a message apart (RFC 8554, 4.5).
const D_MESG: u32 = 0x8181;

// The bytes of the ends of all chains, 32 for each chain of the type that has the most.
const ENDS_MOST: usize = 32 * CHAINS_MOST;

// Writes the ends of all chains, one after the other.
fn put_ends(leaf: Leaf, o: Parameters, s: &[u8], y: &[u8], out: &mut [u8])
    requires { Listed o × (length s.now ≡ checked_size) × (length y.now ≡ 32 * o.chains)
        × (32 * o.chains ≤ length out.old) }
    ensures { take (32 * o.chains) out.new
        ≡ rfc.ends o (identifier leaf) leaf.q s.now y.now o.chains }
{
    let v = walk::walk(leaf, o, s, y);
    for i in 0..o.chains {
        lm_hash::put_value(out, 32 * i, lm_chain_values::value_at(&v, i));
    }
}

// Kc, from C and y[0] to y[p-1] one after the other, with the steps of all chains that lead to it (document
// 02, W7), which are counted from the digits.
pub fn candidate(leaf: Leaf, o: Parameters, message: &[u8], signature: &[u8]) -> WithSteps<State>
    requires { Listed o × (length message.now ≤ limit)
        × (length signature.now ≡ 32 * (o.chains + 1)) }
    ensures key { bytes_of result.value
        ≡ rfc.candidate o (identifier leaf) leaf.q (take 32 signature.now)
        (drop 32 signature.now) message.now }
    ensures steps { result.steps
        ≡ steps o (rfc.message_hash (identifier leaf) leaf.q (take 32 signature.now)
        message.now) }
{
    let q = lm_hash::tagged_message(leaf, leaf.q, D_MESG, &signature[..32], message);
    let checked = digits::with_checksum(q.bytes(), o);
    let s = checked.value;
    let mut ends = [0u8; ENDS_MOST];
    put_ends(leaf, o, &s, &signature[32..], &mut ends);
    let n = 32 * o.chains;
    WithSteps {
        value: lm_hash::tagged(leaf, leaf.q, D_PBLC, &ends[..n]),
        steps: checked.steps,
    }
}
