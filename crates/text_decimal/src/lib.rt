// Numbers in decimal, put into a buffer (document 01, "The report": the lines of the program `audit`).
#![tactic(auto)]

ghost use Rattle.std.specs.Prelude.{◌+◌, ◌≤◌, length};
ghost use Rattle.text_decimal.specs.Decimal.{decimal};
ghost use Rattle.text_decimal.specs.Put.{Put, digits_most};

// Puts a number in decimal at a place, and gives the place after it.
pub fn put_decimal(out: &mut [u8], at: usize, x: u32) -> usize
    requires { at + digits_most ≤ length out.old }
    ensures { Put out.old out.new at result (decimal x) digits_most }
{
    let mut buffer = itoa::Buffer::new();
    let digits = buffer.format(x).as_bytes();
    words::put_bytes(out, at, digits);
    at + digits.len()
}
