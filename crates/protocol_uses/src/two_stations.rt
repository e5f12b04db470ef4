// The request on two captures of a telemetry packet.
use protocol_fields::{Pieces, number, octets, show};
use stations::Station;

// best TIMELEN FIRST SECOND
pub(crate) fn reply(mut fields: Pieces<'_>, room: &mut [u8]) -> Option<()> {
    let time_len = number(fields.next()?)?;
    let (first, room) = octets(fields.next()?, room)?;
    let (second, _) = octets(fields.next()?, room)?;
    fields.end()?;
    answer(time_len, first, second);
    Some(())
}

// The station, both refusals where it is neither, and the part.
fn answer(time_len: u8, first: &[u8], second: &[u8]) {
    match stations::best_station(time_len, first, second) {
        Station::First => show::say(b"first"),
        Station::Second => show::say(b"second"),
        Station::Neither(d, e) => {
            show::say(b"neither ");
            show::refusal(d);
            show::say(b" ");
            show::refusal(e);
        }
    }
    show::octets(stations::best(time_len, first, second));
}
