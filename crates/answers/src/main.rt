// Answers the requests of each file that an argument names, one file after the other; with no argument those of standard input.
#![tactic(auto)]

mod lines;
mod requests;

use std::env::{Env, FillError};
use std::fs::{self, Files};
use std::io::{self, Cursor, ErrorKind, Write};

// The file that a path names, opened to read. A path that is no text names none.
fn opened<R: Files>(rt: &R, path: &[u8]) -> io::Result<R::File> {
    let Ok(name) = str::from_utf8(path) else {
        return Err(io::Error::from(ErrorKind::InvalidFilename));
    };
    fs::open(rt, name)
}

// A line that tells of a path what the system said, without the error's number, which std puts behind it.
fn fail<W: Write>(to: &mut W, path: &[u8], error: &io::Error) -> io::Result<()> {
    let mut whole = Cursor::new([0u8; 256]);
    write!(whole, "{error}")?;
    let n = whole.position() as usize;
    let room = whole.into_inner();
    let text = str::from_utf8(text::part(&room, 0, n)).unwrap_or("");
    let said = text
        .rsplit_once(" (os error ")
        .map_or(text, |(said, _)| said);
    to.write_all(path)?;
    writeln!(to, ": {said}")
}

// A file that cannot be opened is told on standard error, as far as that can be written to.
fn one(rt: &HostRuntime, path: &[u8]) {
    match opened(rt, path) {
        Ok(mut file) => lines::run(&mut file),
        Err(error) => {
            let _ = fail(&mut rt.stderr(), path, &error);
        }
    }
}

// How many files there were. Argument 0 is the program's own name; one that is longer than every path names no file. They are asked
// for by number, since `args` of std would put each on the heap.
fn files(rt: &HostRuntime) -> usize {
    let mut path = [0u8; 4096];
    for i in 1..usize::MAX {
        match rt.arg(i, &mut path) {
            Ok(n) => one(rt, &path[..n]),
            Err(FillError::TooLong) => one(rt, b""),
            Err(FillError::NotPresent) => return i - 1,
        }
    }
    usize::MAX
}

fn main(rt: HostRuntime) {
    if files(&rt) == 0 {
        lines::run(&mut rt.stdin());
    }
}
