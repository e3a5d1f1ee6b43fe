// A file, read whole into a buffer (document 01, "The report": the files of the program `audit`).
#![tactic(auto)]

ghost use Rattle.std.specs.Prelude.{◌≡◌, ◌≤◌, length, take, IfSome, IsTrue};
ghost use Rattle.std.specs.Io.KnownBytes.{Consumes, IsAtEnd};

use std::fs::File;
use std::io::Read;
use std::rt::Files;
use std::{io, str};

// Opens a file for reading. A name that is no text names no file.
fn open<R: Files>(files: &R, name: &[u8]) -> io::Result<R::File> {
    match str::from_utf8(name) {
        Ok(path) => File::open(files, path),
        Err(_) => Err(io::Error::from(io::ErrorKind::NotFound)),
    }
}

// Reads until `buffer` is full, the file ends or a read fails, and gives how many bytes it put at the start
// of `buffer`: those that the file had next.
fn read_full<F: Read>(file: &mut F, buffer: &mut [u8]) -> usize
    ensures within { result ≤ length buffer.new }
    ensures bytes { Consumes (F.remaining file.old) (F.remaining file.new) (take result buffer.new) }
{
    let mut done: usize = 0;
    while done < buffer.len() {
        match file.read(&mut buffer[done..]) {
            Ok(0) | Err(_) => return done,
            Ok(n) => done += n,
        }
    }
    done
}

// Whether nothing is left to read, and the last read did not fail.
fn at_end<F: Read>(file: &mut F) -> bool
    ensures { IsTrue result → IsAtEnd (F.remaining file.old) }
{
    let mut more = [0u8; 1];
    matches!(file.read(&mut more), Ok(0))
}

// Puts what a file has left at the start of `buffer`, and gives its length: none where it cannot be read, or
// is larger than `buffer`.
fn read_whole<F: Read>(file: &mut F, buffer: &mut [u8]) -> Option<usize>
    ensures within { IfSome result (λ n. n ≤ length buffer.new) }
    ensures whole { IfSome result
        (λ n. IfSome (F.remaining file.old) (λ bytes. take n buffer.new ≡ bytes)) }
{
    let n = read_full(file, buffer);
    if at_end(file) { Some(n) } else { None }
}

// Puts a file at the start of `buffer`, and gives its length: none for a file that is missing, that cannot be
// read, or that is larger than `buffer`, so that a larger file is never taken for its beginning.
pub fn load<R: Files>(files: &R, name: &[u8], buffer: &mut [u8]) -> Option<usize>
    ensures within { IfSome result (λ n. n ≤ length buffer.new) }
    ensures taken { IfSome result (λ n. n ≡ length (take n buffer.new)) }
{
    let mut file = open(files, name).ok()?;
    read_whole(&mut file, buffer)
}
