// One line in, one line out: requests to the library, and its answers (docs/PROTOCOL.md). A line that is no request is answered
// `bad-request`.
use protocol_fields::{Pieces, number, show};

// Answers a line. room is for the octets of its fields.
pub(crate) fn answer(line: &[u8], room: &mut [u8]) {
    if reply(line, room).is_none() {
        show::say(b"bad-request");
    }
    show::say(b"\n");
}

// Requests are of telecommands of PUS C, unless `in FORM` comes before them.
fn reply(line: &[u8], room: &mut [u8]) -> Option<()> {
    let mut fields = Pieces::new(line, b' ');
    let kind = fields.next()?;
    if let b"in" = kind {
        return reply_in(fields.next()?, fields, room);
    }
    protocol_uses::reply(kind, fields, room).or_else(|| protocol_tc::reply(kind, fields, room))
}

// A form is a letter and a number.
fn reply_in(form: &[u8], mut fields: Pieces<'_>, room: &mut [u8]) -> Option<()> {
    let (letter, size) = form.split_first()?;
    let size = number(size)?;
    let kind = fields.next()?;
    match letter {
        b'a' => protocol_tc::reply_in_a(size, kind, fields, room),
        b'c' => protocol_tc::reply_in_c(size, kind, fields, room),
        b't' => protocol_tm::reply(size, kind, fields, room),
        _ => None,
    }
}
