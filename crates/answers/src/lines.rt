// The lines of an input, each of which is answered.
ghost use Rattle.std.specs.Prelude.{◌≡◌, ◌≤◌, length};

use crate::requests;
use protocol_fields::show;
use std::io::Read;

// Answers the whole lines of s, but the first where that is the rest of one that is skipped, and tells where the next line starts.
fn answered(s: &[u8], skip: bool, room: &mut [u8]) -> usize
    ensures { result ≤ length s.now }
{
    let Some(end) = s.iter().rposition(|c| *c == b'\n') else {
        return 0;
    };
    for line in s[..end].split(|c| *c == b'\n').skip(usize::from(skip)) {
        requests::answer(line, room);
    }
    end + 1
}

// Answers the lines that a reader has, to its end or a read that fails. One that fills the buffer is too long, and no request: the rest
// of it is skipped.
fn lines<R: Read>(reader: &mut R, buf: &mut [u8], room: &mut [u8]) {
    let mut held = 0;
    let mut skip = false;
    // A proved loop has to end, and nothing says that an input does.
    for _ in 0..u64::MAX {
        let got = reader.read(&mut buf[held..]).unwrap_or(0);
        if got == 0 {
            break;
        }
        let n = held + got;
        let next = answered(&buf[..n], skip, room);
        if skip && next == 0 {
            continue;
        }
        skip = false;
        buf.copy_within(next..n, 0);
        held = n - next;
        if held == buf.len() {
            show::say(b"bad-request\n");
            skip = true;
            held = 0;
        }
    }
    // What stands behind the last end of a line is one more line.
    if held > 0 {
        requests::answer(&buf[..held], room);
    }
}

// Room for a line, or for the octets of one. The `ensures` gives what lending it as a slice asks.
fn buffer() -> [u8; 1048576]
    ensures { 1048576 ≡ length result }
{
    [0; 1048576]
}

pub(crate) fn run<R: Read>(reader: &mut R) {
    lines(reader, &mut buffer(), &mut buffer());
}
