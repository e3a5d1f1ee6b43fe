// The lengths of a district's submissions, against the buffer that has them (document 02, W1: 17 and 18).
#![tactic(auto)]

ghost use Rattle.std.specs.Prelude.{◌≡◌};
ghost use Rattle.district_parts.specs.Parts as paper;

// The fewest submissions of a run, and the most.
const COUNT_LEAST: usize = 2;

pub const COUNT_MOST: usize = 9;

// 17: whether there are two lengths at least, and nine at most.
pub fn count_in_range(lengths: &[u32]) -> bool
    ensures { result ≡ paper.counted lengths.now }
{
    COUNT_LEAST <= lengths.len() && lengths.len() <= COUNT_MOST
}

// 18: whether the lengths add up to the buffer's. Each is taken from what is left, so that nothing wraps.
pub fn lengths_add_up(lengths: &[u32], buffer: &[u8]) -> bool
    ensures { result ≡ paper.adds_up lengths.now buffer.now }
{
    let mut left = buffer.len();
    for size in lengths {
        let Some(rest) = left.checked_sub(*size as usize) else {
            return false;
        };
        left = rest;
    }
    left == 0
}
