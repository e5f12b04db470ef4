// An input read to its end, and a text written whole, for the programs on a capture.
#![tactic(auto, unfolding(crate::specs::Reading::input_of))]

ghost use Rattle.std.specs.Prelude.{◌≡◌, ◌↔◌, IsTrue, IsErrAnd, OnOk, OnErr, length};
ghost use Rattle.std.specs.Io.{WritesAtMost};
ghost use Rattle.std.specs.Io.KnownBytes.{Appends, WriteAppends};
ghost use Rattle.std.specs.IoError.{error_kind};
ghost use Rattle.input.specs.Printing.{AppendsPart};
ghost use Rattle.input.specs.Reading.{input_of, Within};

use std::io;
use std::io::{ErrorKind, Read, Write};

// That an input could not be read.
#[derive(Clone, Copy, PartialEq, Eq)]
pub struct Failed;

// What the system's answer to a read says: so many octets, none at the end of the input, or that it failed. It alone tells of a
// failure: a read after a failed one may find the end.
fn told(answer: io::Result<usize>) -> Result<usize, Failed>
    ensures { result ≡ input_of answer }
{
    answer.map_err(|_| Failed)
}

// Whether a signal interrupted the read or the write that was just made.
fn interrupted(got: &io::Result<usize>) -> bool
    ensures { IsTrue result ↔ IsErrAnd got.now (λ e. error_kind e ≡ ErrorKind.Interrupted) }
{
    matches!(got, Err(e) if e.kind() == ErrorKind::Interrupted)
}

// How often in a row a read or a write is tried that signals interrupt.
const TRIES: usize = 1000;

// Reads some octets, and tries again where a signal interrupted it.
fn read_some<R: Read>(reader: &mut R, space: &mut [u8]) -> Result<usize, Failed>
    ensures { Within result (length space.old) }
{
    for _ in 1..TRIES {
        let got = reader.read(space);
        if !interrupted(&got) {
            return told(got);
        }
    }
    told(reader.read(space))
}

// Reads until the input ends, buf is full or a read fails, and answers how many octets it read. No contract can say what they are.
pub fn read_input<R: Read>(reader: &mut R, buf: &mut [u8]) -> Result<usize, Failed>
    ensures { Within result (length buf.old) }
{
    let mut n = 0;
    while n < buf.len() {
        let more = read_some(reader, &mut buf[n..])?;
        if more == 0 {
            break;
        }
        n += more;
    }
    Ok(n)
}

// Writes some octets of a text, and tries again where a signal interrupted it.
fn write_some<W: Write>(writer: &mut W, text: &[u8]) -> io::Result<usize>
    ensures bound { WritesAtMost result text.now }
    ensures bytes { WriteAppends (W.contents writer.old) (W.contents writer.new) result text.now }
{
    for _ in 1..TRIES {
        let got = writer.write(text);
        if !interrupted(&got) {
            return got;
        }
    }
    writer.write(text)
}

// Writes a text whole, or some beginning of it where a write fails. Of that, std's `write_all` says nothing.
pub fn put_all<W: Write>(writer: &mut W, text: &[u8]) -> io::Result<()>
    ensures ok { OnOk result (Appends (W.contents writer.old) (W.contents writer.new) text.now) }
    ensures err { OnErr result (AppendsPart (W.contents writer.old) (W.contents writer.new) text.now) }
{
    let mut rest = text;
    while !rest.is_empty() {
        let n = write_some(writer, rest)?;
        if n == 0 {
            return Err(io::Error::from(ErrorKind::WriteZero));
        }
        rest = &rest[n..];
    }
    Ok(())
}
