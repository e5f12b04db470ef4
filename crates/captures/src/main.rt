// Both reports of each capture that an argument names, one after the other.
#![tactic(auto)]

use std::env::{Env, FillError};
use std::fs::{self, Files};
use std::io;

// The file that a path names, opened to read. A path that is no text names none.
fn opened<R: Files>(rt: &R, path: &[u8]) -> Option<R::File> {
    let name = str::from_utf8(path).ok()?;
    fs::open(rt, name).ok()
}

// A file's name, what tcverdict prints of it, and what tcgaps does, of the same opened again.
fn one<R: Files + Print>(rt: &R, path: &[u8]) -> io::Result<()> {
    rt.write_all(b"== ")?;
    rt.write_all(path)?;
    rt.write_all(b"\n")?;
    match opened(rt, path) {
        Some(mut file) => report::run(&mut file, &mut io::writer(rt))?,
        None => rt.write_all(b"cannot be opened\n")?,
    }
    match opened(rt, path) {
        Some(mut file) => gap_report::run(&mut file, &mut io::writer(rt)),
        None => Ok(()),
    }
}

// Argument 0 is the program's own name. One that is longer than every path names no file. They are asked for by number, since `args`
// of std would put each on the heap.
fn main(rt: HostRuntime) -> io::Result<()> {
    let mut path = [0u8; 4096];
    for i in 1..usize::MAX {
        match rt.arg(i, &mut path) {
            Ok(n) => one(&rt, &path[..n])?,
            Err(FillError::TooLong) => one(&rt, b"")?,
            Err(FillError::NotPresent) => break,
        }
    }
    Ok(())
}
