// The LMS signature check (RFC 8554, section 5; document 01, "Digest and signature").
#![tactic(auto)]

ghost use Rattle.std.specs.Prelude.{◌≡◌, ◌+◌, ◌*◌, ◌^◌, ◌≤◌, ◌<◌, length, drop};
ghost use Rattle.words.specs.BigEndian.{number_at, same};
ghost use Rattle.sha256.specs.Service.{limit};
ghost use Rattle.sha256.specs.Sha256.{bytes_of};
ghost use Rattle.lm_digits.specs.Listed.{Listed};
ghost use Rattle.lm_digits.specs.Digits.{steps};
ghost use Rattle.lm_format.specs.Bounds.{height_most};
ghost use Rattle.lm_format.specs.Format.{key_size, signature_length};
ghost use Rattle.lms.specs.Check as rfc;

use lm_answer::Answer;
use lm_digits::{Parameters, WithSteps};
use lm_format::{IDENTIFIER_AT, ONE_TIME_AT, ROOT_AT, TYPE_SIZE};
use sha256::State;

// Tc, the root that a signature of the right length and leaf number leads to (RFC 8554, 5.4.2, algorithm 6a),
// with the chain steps (document 02, W7). Not inlined: in one function with the tests before it, the compiler
// makes its 50,000 bytes of room behind some of them, by a register that one of them still reads, and each
// signature is bad (docs/SPEED.md).
#[inline(never)]
fn root_of(o: Parameters, h: u32, key: &[u8], message: &[u8], signature: &[u8]) -> WithSteps<State>
    requires { Listed o × (h ≤ height_most) × (length key.now ≡ key_size) × (length message.now ≤ limit)
        × (length signature.now ≡ signature_length o h) × (number_at 4 signature.now 0 < 2 ^ h) }
    ensures root { bytes_of result.value
        ≡ rfc.root_of o h key.now message.now signature.now }
    ensures steps { result.steps
        ≡ steps o (rfc.hash_of key.now message.now signature.now) }
{
    let leaf = lm_hash::leaf_at(key, IDENTIFIER_AT, words::u32_at(signature, 0));
    let end = ONE_TIME_AT + lm_format::one_time_size(o);
    let path = end + TYPE_SIZE;
    let candidate = lm_ots::candidate::candidate(leaf, o, message, &signature[ONE_TIME_AT..end]);
    WithSteps {
        value: lm_tree::root(leaf, h, candidate.value, &signature[path..]),
        steps: candidate.steps,
    }
}

// Whether the root's bytes are the key's.
fn matches(root: State, key: &[u8]) -> bool
    requires { length key.now ≡ key_size }
    ensures { result ≡ same (bytes_of root) (drop 24 key.now) }
{
    root.bytes()[..] == key[ROOT_AT..]
}

// Whether a signature verifies under a key of known types (RFC 8554, 5.4.2, algorithms 6 and 6a): good, with
// the number of its leaf, or bad; with the chain steps.
fn verify(o: Parameters, h: u32, key: &[u8], message: &[u8], signature: &[u8]) -> Answer
    requires { Listed o × (h ≤ height_most) × (length key.now ≡ key_size)
        × (length message.now ≤ limit) }
    ensures { result
        ≡ rfc.verdict (rfc.verifies o h key.now message.now signature.now)
        key.now signature.now
        (rfc.steps_taken o h key.now message.now signature.now) }
{
    if !lm_format::signature_formed(o, h, key, signature) {
        return Answer::Bad(0);
    }
    let candidate = root_of(o, h, key, message, signature);
    let steps = candidate.steps;
    if !matches(candidate.value, key) {
        return Answer::Bad(steps);
    }
    Answer::Good(words::u32_at(signature, 0), steps)
}

// The check: a long message first, then good, with its leaf's number, or bad as RFC 8554 says; with the chain
// steps, of which there are none where a length, a type or the leaf number is wrong.
pub fn check(key: &[u8], message: &[u8], signature: &[u8]) -> Answer
    ensures { result ≡ rfc.answer key.now message.now signature.now }
{
    if sha256_service::MESSAGE_MAX < message.len() {
        return Answer::Long;
    }
    if key.len() != lm_format::KEY_SIZE {
        return Answer::Bad(0);
    }
    let Some(o) = lm_digits::one_time(words::u32_at(key, 4)) else {
        return Answer::Bad(0);
    };
    let Some(h) = lm_format::height_of(words::u32_at(key, 0)) else {
        return Answer::Bad(0);
    };
    verify(o, h, key, message, signature)
}
