// The requests on the uses above the packets, which the crate does not have.
#![tactic(auto)]

mod listing;
mod parameters;
mod tailored;
mod track;
mod two_stations;

use protocol_fields::Pieces;

// Answers a request, or else None where the line is none of these. room is for the octets of its fields.
pub fn reply(kind: &[u8], fields: Pieces<'_>, room: &mut [u8]) -> Option<()> {
    match kind {
        b"track" => track::reply(fields, room),
        b"best" => two_stations::reply(fields, room),
        b"params" => parameters::read(fields, room),
        b"wparams" => parameters::write(fields, room),
        b"profile" => tailored::reply(fields, room),
        b"pbuild" => tailored::build(fields, room),
        b"gaps" => listing::reply(fields, room),
        _ => None,
    }
}
