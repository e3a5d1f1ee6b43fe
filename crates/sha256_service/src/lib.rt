// The digest service (document 01, "Digest and signature").
#![tactic(auto)]

ghost use Rattle.std.specs.Prelude.{◌≡◌, IfOk, is_err};
ghost use Rattle.refusal.specs.Refusals.{number_of};
ghost use Rattle.sha256.specs.Service.{digest_number, too_long};
ghost use Rattle.sha256.specs.Sha256.{sha256};

use refusal::Refusal;
use sha256::State;

// A message is its bytes, with the bound in each contract: a type with it would ask more of callers of
// `tagged_message` and `signature_genuine`, which docs/ names.

// The most bytes that a message may have (document 01, "Digest and signature").
pub const MESSAGE_MAX: usize = 16777216;

// The service: the digest, or that the message has more than 16,777,216 bytes.
pub fn digest(message: &[u8]) -> Result<[u8; 32], Refusal>
    ensures number { number_of result ≡ digest_number message.now }
    ensures refused { is_err result ≡ too_long message.now }
    ensures digest { IfOk result (λ bytes. bytes ≡ sha256 message.now) }
{
    if MESSAGE_MAX < message.len() {
        return Err(Refusal::LongMessage);
    }
    let whole = message.len() / 64 * 64;
    let s = State::new().absorb_all(message);
    let end = s.finish(&message[whole..], message.len());
    Ok(end.bytes())
}
