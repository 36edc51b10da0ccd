// What the programs here ask of the system: files and arguments by their bytes, and a line on what failed.
#![tactic(auto)]

ghost use Rattle.std.specs.Prelude.{◌≤◌, IfOk, length};

use std::env::FillError;
use std::io::{Read, Write};
use std::rt::{Env, Files};
use std::{fs, io};

// Reads until the slice is full or the input ends, and answers how many bytes were put at its front. A read that a signal interrupts counts
// as one that failed.
pub fn read_full<R: Read>(from: &mut R, buf: &mut [u8]) -> io::Result<usize>
    ensures { IfOk result (λ n. n ≤ length buf.new) }
{
    let mut done = 0;
    while done < buf.len() {
        let n = from.read(&mut buf[done..])?;
        if n == 0 {
            break;
        }
        done += n;
    }
    Ok(done)
}

// The file of that name, for reading. A name that is not UTF-8 is refused, since no file is opened by one here.
pub fn open_named<F: Files>(files: &F, name: &[u8]) -> io::Result<F::File> {
    match str::from_utf8(name) {
        Ok(path) => fs::open(files, path),
        Err(_) => Err(io::Error::from(io::ErrorKind::InvalidFilename)),
    }
}

// How many arguments the program was started with, its own name among them.
pub fn argument_count<E: Env>(env: &E) -> usize {
    for i in 0..usize::MAX {
        if let Err(FillError::NotPresent) = env.arg(i, &mut []) {
            return i;
        }
    }
    usize::MAX
}

// Puts an argument at the front of the slice and answers its length; 0 where it is missing or longer than the slice.
pub fn argument<E: Env>(env: &E, i: usize, buf: &mut [u8]) -> usize
    ensures { result ≤ length buf.new }
{
    match env.arg(i, buf) {
        Ok(n) => n,
        Err(_) => 0,
    }
}

// The system's words, without the error's number that std puts behind them.
fn reason(said: &[u8]) -> &[u8] {
    for n in 0..said.len() {
        if said[n..].starts_with(b" (os error ") {
            return &said[..n];
        }
    }
    said
}

// A line on what failed: its name, a colon and the system's words for why. Of words beyond 256 bytes only the front is written.
pub fn put_failure<W: Write>(to: &mut W, what: &[u8], error: &io::Error) -> io::Result<()> {
    let mut said = io::Cursor::new([0u8; 256]);
    let _ = write!(&mut said, "{error}");
    to.write_all(what)?;
    to.write_all(b": ")?;
    let end = said.position().min(256) as usize;
    let text = said.into_inner();
    to.write_all(reason(&text[..end]))?;
    to.write_all(b"\n")
}
