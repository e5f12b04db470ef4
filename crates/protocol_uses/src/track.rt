// The request on the tracker.
use protocol_fields::{Pieces, number, octets, pair, show};
use tracker::Tracker;

// track TIMELEN CALLS, where room is for the octets of one call.
pub(crate) fn reply(mut fields: Pieces<'_>, room: &mut [u8]) -> Option<()> {
    let time_len = number(fields.next()?)?;
    let calls = Pieces::list(fields.next()?);
    fields.end()?;
    for call in calls {
        let _ = Call::read(call, room)?;
    }
    let mut tracker = Tracker::new();
    for call in calls {
        if let Some(call) = Call::read(call, room) {
            make(call, &mut tracker, time_len);
        }
    }
    open(tracker);
    Some(())
}

// ---- CALLS

// A command that is sent, a report that comes, or a request that is asked after.
#[derive(Clone, Copy)]
enum Call<'a> {
    Send(&'a [u8]),
    Report(&'a [u8]),
    IsOpen(u32),
}

impl<'a> Call<'a> {
    // A letter, a colon and octets, four of them for the ID of a request.
    fn read(item: &[u8], room: &'a mut [u8]) -> Option<Call<'a>> {
        let (letter, digits) = pair(item, b':')?;
        let (octets, _) = octets(digits, room)?;
        match letter {
            b"s" => Some(Call::Send(octets)),
            b"r" => Some(Call::Report(octets)),
            b"o" if octets.len() == 4 => Some(Call::IsOpen(tracker::request_of(octets))),
            _ => None,
        }
    }
}

// Makes a call and shows its answer, and a space.
fn make(call: Call<'_>, tracker: &mut Tracker, time_len: u8) {
    match call {
        Call::Send(octets) => show::check(tracker.send(octets)),
        Call::Report(octets) => show::check(tracker.report(time_len, octets)),
        Call::IsOpen(id) => show::number(b"", u64::from(tracker.is_open(id))),
    }
    show::say(b" ");
}

// ---- what is open

// open: and the requests that are open, or `-`.
fn open(tracker: Tracker) {
    show::say(b"open:");
    if tracker.open_count() == 0 {
        show::say(b"-");
    }
    for i in 0..tracker.open_count() {
        if i > 0 {
            show::say(b",");
        }
        if let Some(id) = tracker.open_at(i) {
            show::hex(&id.to_be_bytes());
        }
    }
}
