// The hash value of a short head and a message after it, with no copy of the message.
ghost use Rattle.std.specs.Prelude.{◌≡◌, ◌++◌, ◌≤◌, ◌<◌, length, take, replicate};
ghost use Rattle.sha256.specs.Service.{limit};
ghost use Rattle.sha256.specs.Sha256 as fips;

use sha256::State;

// The first 64 bytes of the two slices, one after the other, with zeros where they end before.
pub fn first_block(head: &[u8], message: &[u8]) -> [u8; 64]
    ensures { result ≡ take 64 ((head.now ++ message.now) ++ replicate 64 0) }
{
    let mut block = [0u8; 64];
    let start = head.len().min(64);
    let more = message.len().min(64 - start);
    block[..start].copy_from_slice(&head[..start]);
    block[start..start + more].copy_from_slice(&message[..more]);
    block
}

// The hash value of the two slices, one after the other.
pub fn joined(head: &[u8], message: &[u8]) -> State
    requires { (length head.now < 64) × (length message.now ≤ limit) }
    ensures { fips.bytes_of result ≡ fips.sha256 (head.now ++ message.now) }
{
    let total = head.len() + message.len();
    let block = first_block(head, message);
    if total < 64 {
        return State::new().finish(&block[..total], total);
    }
    let room = 64 - head.len();
    let rest = &message[room..];
    let whole = rest.len() / 64 * 64;
    let s = State::new().absorb(sha256::block_at(&block, 0));
    s.absorb_all(rest).finish(&rest[whole..], total)
}
