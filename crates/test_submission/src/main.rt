// Prints for sample submissions, one for each number from 5 to 15 and four for 0, the number and the pointers
// that validation gives them against a sample roster. The files are made by tests/auditor (make_cases, folder
// numbers); the file `stdout` has what its auditor gives.
#![tactic(auto)]

use log_terms::LogPointers;
use refusal::Refusal;
use sha256::State;
use std::io;
use std::rt::Files;

// Prints a pointer behind a space.
fn print_pointer(rt: &impl Print, pointer: State) -> io::Result<()> {
    rt.write_all(b" ")?;
    test_vectors::print_hex(rt, &pointer.bytes())
}

// Prints a number and the pointers behind a name, and ends the line; of a refusal pointer 0 twice.
fn print_validated(rt: &impl Print, validated: Result<LogPointers, Refusal>) -> io::Result<()> {
    let number = refusal::number_of(&validated);
    print!(rt; " {number}")?;
    let pointers = submission_checks::handed(validated);
    print_pointer(rt, pointers.committed)?;
    print_pointer(rt, pointers.last)?;
    rt.write_all(b"\n")
}

// Prints a submission's name, number and pointers as a line. A file that cannot be read whole is an error in
// the output.
fn print_submission(rt: &(impl Files + Print), roster: &[u8], name: &[u8]) -> io::Result<()> {
    let mut submission = [0u8; 16384];
    let read = test_vectors::load(rt, name, &mut submission);
    rt.write_all(name)?;
    let Some(n) = read else {
        return rt.write_all(b" cannot be read\n");
    };
    print_validated(rt, submission_checks::validate(roster, &submission[..n]))
}

// The submissions whose number their bytes decide.
const BY_BYTES: [&[u8]; 6] = [b"n00", b"n05", b"n06", b"n07", b"n08", b"n09"];

// Those whose number what they say decides.
const BY_CONTENT: [&[u8]; 6] = [b"n10", b"n11", b"n12", b"n13", b"n14", b"n15"];

// Those that are accepted, committed in part, not at all and up to the end.
const ACCEPTED: [&[u8]; 3] = [b"whole", b"uncommitted", b"committed"];

fn main(rt: HostRuntime) -> io::Result<()> {
    let mut bytes = [0u8; 1024];
    let n = test_vectors::load(&rt, b"roster", &mut bytes).unwrap_or(0);
    for name in BY_BYTES.iter().chain(&BY_CONTENT).chain(&ACCEPTED) {
        print_submission(&rt, &bytes[..n], name)?;
    }
    Ok(())
}
