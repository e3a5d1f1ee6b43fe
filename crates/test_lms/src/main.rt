// Prints for each line of two files of published LMS vectors (RFC 8554; document 01, "Conditions of
// acceptance"), in the files' order, whether its signature is good, 1 and the number of its leaf, or 0; and
// the chain steps (document 02, W7). A line of a file is a name, 1 or 0, the key, the message and the
// signature. The second is not read here: the file `stdout` has them, each 1 with the number in the first
// four bytes of the signature, and the steps that the separately written auditor counts.
#![tactic(auto)]

use lm_answer::Answer;
use std::io;
use std::rt::Files;

// More bytes than either file has.
const TEXT_SIZE: usize = 524288;

// Prints an answer as a line.
fn print_answer(rt: &impl Print, answer: Answer) -> io::Result<()> {
    match answer {
        Answer::Good(leaf, steps) => println!(rt; "1 {leaf} {steps}"),
        Answer::Bad(steps) => println!(rt; "0 {steps}"),
        Answer::Long => println!(rt; "long"),
    }
}

// Prints the answer for the line that `text` starts with.
fn print_line(rt: &impl Print, text: &[u8]) -> io::Result<()> {
    let mut fields = text.split(|c| *c == b' ').skip(2);
    let mut key = [0u8; 4096];
    let mut message = [0u8; 4096];
    let mut signature = [0u8; 65536];
    let k = test_vectors::decode(fields.next().unwrap_or(b""), &mut key);
    let m = test_vectors::decode(fields.next().unwrap_or(b""), &mut message);
    let s = test_vectors::decode(fields.next().unwrap_or(b""), &mut signature);
    print_answer(rt, lms::check(&key[..k], &message[..m], &signature[..s]))
}

// Prints the answers for a file's lines.
fn print_file(rt: &(impl Files + Print), name: &[u8]) -> io::Result<()> {
    let mut text = [0u8; TEXT_SIZE];
    test_vectors::print_file(rt, name, &mut text, |line| print_line(rt, line))
}

fn main(rt: HostRuntime) -> io::Result<()> {
    print_file(&rt, b"lms-rfc8554.txt")?;
    print_file(&rt, b"lms-acvp.txt")
}
