// Files of published test vectors (document 01, "Conditions of acceptance"), read and printed: a text of
// lines, each of fields in hex that a space separates; `-` stands for no bytes.
#![tactic(auto)]

ghost use Rattle.std.specs.Prelude.{◌≡◌, ◌+◌, ◌<◌, ◌≤◌, length, take, IfSome, OnSome};

use std::io;
use std::rt::Files;

// The value of a hex digit.
fn hex_value(c: u8) -> Option<u8>
    ensures { IfSome result (λ value. value < 16) }
{
    let value = (c as char).to_digit(16)?;
    Some(value as u8)
}

// The byte that the digits 2n and 2n + 1 write, if these are two hex digits.
fn pair(digits: &[u8], n: usize) -> Option<u8>
    ensures { OnSome result (n + n + 1 < length digits.now) }
{
    if digits.len() / 2 <= n {
        return None;
    }
    let high = hex_value(digits[2 * n])?;
    let low = hex_value(digits[2 * n + 1])?;
    Some(high * 16 + low)
}

// Decodes the hex digits that `digits` starts with to the start of `out`, and gives the number of bytes.
// It stops at the first pair that is not two digits, and when `out` is full.
pub fn decode(digits: &[u8], out: &mut [u8]) -> usize
    ensures within { result ≤ length out.new }
    ensures taken { result ≡ length (take result out.new) }
    ensures pairs { result + result ≤ length digits.now }
{
    for n in 0..out.len() {
        let Some(byte) = pair(digits, n) else {
            return n;
        };
        out[n] = byte;
    }
    out.len()
}

// Prints each byte as two lowercase hex digits.
pub fn print_hex(rt: &impl Print, bytes: &[u8]) -> io::Result<()> {
    for byte in bytes {
        print!(rt; "{byte:02x}")?;
    }
    Ok(())
}

// Puts the file at the start of `text`, and gives its length; none if the file is empty, cannot be opened or
// read, or is not shorter than `text`.
pub fn load(files: &impl Files, name: &[u8], text: &mut [u8]) -> Option<usize>
    ensures within { IfSome result (λ n. n ≤ length text.new) }
    ensures taken { IfSome result (λ n. n ≡ length (take n text.new)) }
{
    let n = program_files::load(files, name, text)?;
    if 0 < n && n < text.len() {
        Some(n)
    } else {
        None
    }
}

// The place after the first `mark` from `at` on, or the text's end.
pub fn past(text: &[u8], at: usize, mark: u8) -> usize
    ensures within { result ≤ length text.now }
    ensures progress { at < length text.now → at < result }
{
    if text.len() <= at {
        return text.len();
    }
    match text[at..].iter().position(|c| *c == mark) {
        Some(n) => at + n + 1,
        None => text.len(),
    }
}

// Has each line of a text printed: a call gets what stands from the line's beginning on.
fn print_lines<P: Fn(&[u8]) -> io::Result<()>>(text: &[u8], print_line: P) -> io::Result<()>
    requires { P.IsAlwaysCallable print_line }
{
    let mut at = 0;
    while at < text.len() {
        print_line(&text[at..])?;
        at = past(text, at, b'\n');
    }
    Ok(())
}

// Reads a file into `text`, and has each of its lines printed. A file that cannot be read whole is an error
// in the output.
pub fn print_file<P: Fn(&[u8]) -> io::Result<()>>(
    rt: &(impl Files + Print),
    name: &[u8],
    text: &mut [u8],
    print_line: P,
) -> io::Result<()>
    requires { P.IsAlwaysCallable print_line }
{
    let Some(n) = load(rt, name, text) else {
        return rt.write_all(b"cannot read\n");
    };
    print_lines(&text[..n], print_line)
}
