// Big-endian unsigned numbers, of 1, 2 and 4 bytes and of a width of up to 8, read at a place of a slice and
// written to one (document 01, "The parts ordered").
#![tactic(auto)]

ghost use Rattle.std.specs.Prelude.{◌≡◌, ◌+◌, ◌^◌, ◌≤◌, ◌<◌, length};
ghost use Rattle.std.proofs.lemmas.List.Edits.{sets};
ghost use Rattle.words.specs.BigEndian.{number_at, be};
ghost use Rattle.words.specs.Widths.{width_most};

// The most bytes of a number that is held in 64 bits. A width is a `usize` with `width ≤ width_most` in its
// contract: a type with that bound asks more of callers of `number_at`, `record_size` and others in docs/.
pub const WIDTH_MOST: usize = 8;

// The 2-byte number at a place. (The readers and writers of 2, 4 and `width` bytes stay apart: as one generic
// function they would read no plainer, with a type of result for each and the shape of `u32_at` for one.)
pub fn u16_at(s: &[u8], at: usize) -> u16
    requires { at + 2 ≤ length s.now }
    ensures { (result ≡ number_at 2 s.now at) × (result < 65536) }
{
    u16::from_be_bytes([s[at], s[at + 1]])
}

// The 4-byte number at a place. (Not by `u32::from_be_bytes`: tried, and a block of SHA-256, whose words are
// read here, then takes 7 % more instructions, 3,267 for 3,047.)
pub fn u32_at(s: &[u8], at: usize) -> u32
    requires { at + 4 ≤ length s.now }
    ensures { (result ≡ number_at 4 s.now at) × (result < 4294967296) }
{
    u32::from(s[at]) * 0x100_0000
        + u32::from(s[at + 1]) * 0x1_0000
        + u32::from(s[at + 2]) * 0x100
        + u32::from(s[at + 3])
}

// The number of `width` bytes at a place. A byte a turn: a term is 4 bytes or 8, and no proof asks which.
pub fn number_at(s: &[u8], at: usize, width: usize) -> u64
    requires { (at + width ≤ length s.now) × (width ≤ width_most) }
    ensures { (result ≡ number_at width s.now at) × (result < 256 ^ width) }
{
    let mut value: u64 = 0;
    for byte in &s[at..at + width] {
        value = value * 256 + u64::from(*byte);
    }
    value
}

// Writes a number to the byte at a place.
pub fn put_u8(out: &mut [u8], at: usize, x: u32)
    requires { at < length out.old }
    ensures { out.new ≡ sets out.old at (be 1 x) }
{
    out[at] = (x % 256) as u8;
}

// Writes a number to the 2 bytes at a place.
pub fn put_u16(out: &mut [u8], at: usize, x: u16)
    requires { at + 2 ≤ length out.old }
    ensures { out.new ≡ sets out.old at (be 2 x) }
{
    out[at..at + 2].copy_from_slice(&x.to_be_bytes());
}

// Writes a number to the 4 bytes at a place.
pub fn put_u32(out: &mut [u8], at: usize, x: u32)
    requires { at + 4 ≤ length out.old }
    ensures { out.new ≡ sets out.old at (be 4 x) }
{
    out[at..at + 4].copy_from_slice(&x.to_be_bytes());
}

// Writes a number to the `width` bytes at a place.
pub fn put_number(out: &mut [u8], at: usize, width: usize, x: u64)
    requires { (at + width ≤ length out.old) × (width ≤ width_most) }
    ensures { out.new ≡ sets out.old at (be width x) }
{
    put_bytes(out, at, &x.to_be_bytes()[WIDTH_MOST - width..]);
}

// Writes some bytes to a place. (Not by `copy_from_slice`: where it knows neither the length nor that the two
// lie apart, the compiler makes of that a call of `memmove`, which the library in C asks nobody for.)
pub fn put_bytes(out: &mut [u8], at: usize, bytes: &[u8])
    requires { at + length bytes.now ≤ length out.old }
    ensures { out.new ≡ sets out.old at bytes.now }
{
    for (i, byte) in bytes.iter().enumerate() {
        out[at + i] = *byte;
    }
}
