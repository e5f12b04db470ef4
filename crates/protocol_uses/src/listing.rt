// The request on the gaps of a capture.
use gaps::Totals;
use protocol_fields::{Pieces, number, octets, show};
use space_packet::PusError;

// gaps PLACES DATA
pub(crate) fn reply(mut fields: Pieces<'_>, room: &mut [u8]) -> Option<()> {
    let places: u16 = number(fields.next()?)?;
    let (capture, _) = octets(fields.next()?, room)?;
    fields.end()?;
    answer(places, capture);
    Some(())
}

fn answer(places: u16, capture: &[u8]) {
    let mut list = [[0; 3]; 65535];
    if let Some(list) = list.get_mut(..usize::from(places)) {
        listed(capture, list);
    }
}

// It stays a call: where it is one piece with the list above, LLVM fills that a second time, row by row.
#[inline(never)]
fn listed(capture: &[u8], list: &mut [[u16; 3]]) {
    let found = gaps::list_gaps(capture, list);
    ended(found.result);
    if found.listed == 0 {
        return show::say(b" -");
    }
    // A space, then APID:EXPECTED:FOUND, for each.
    for row in list.iter().take(found.listed) {
        show::list(b" ", b':', &row.map(u64::from));
    }
}

// `ok` and the totals, or the refusal and `-`.
fn ended(r: Result<Totals, PusError>) {
    match r {
        Ok(t) => {
            show::number(b"ok accepted:", t.accepted as u64);
            show::number(b" refused:", t.refused as u64);
            show::number(b" tail:", t.tail as u64);
        }
        Err(e) => {
            show::refusal(e);
            show::say(b" -");
        }
    }
}
