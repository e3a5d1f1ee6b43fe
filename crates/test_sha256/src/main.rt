// Prints the SHA-256 of each message of two files of published vectors (FIPS 180-4; document 01, "Conditions
// of acceptance"), in the files' order, one to a line. A line of a file is the message and its digest. The
// digest is not read here: the file `stdout` has them.
#![tactic(auto)]

use std::io;
use std::rt::Files;

// Prints a digest as a line.
fn print_line(rt: &impl Print, digest: &[u8; 32]) -> io::Result<()> {
    test_vectors::print_hex(rt, digest)?;
    rt.write_all(b"\n")
}

// Prints the digest of the message that `digits` starts with.
fn print_digest(rt: &impl Print, digits: &[u8]) -> io::Result<()> {
    let mut message = [0u8; 4096];
    let n = test_vectors::decode(digits, &mut message);
    match sha256_service::digest(&message[..n]) {
        Ok(digest) => print_line(rt, &digest),
        Err(_) => rt.write_all(b"no digest\n"),
    }
}

// Prints the digests of a file's messages.
fn print_file(rt: &(impl Files + Print), name: &[u8]) -> io::Result<()> {
    let mut text = [0u8; 65536];
    test_vectors::print_file(rt, name, &mut text, |line| print_digest(rt, line))
}

fn main(rt: HostRuntime) -> io::Result<()> {
    print_file(&rt, b"sha256-fips180.txt")?;
    print_file(&rt, b"sha256-cavp.txt")
}
