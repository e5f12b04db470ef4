// The requests on telemetry with a time of so many octets.
#![tactic(auto)]

mod read;
mod write;

use protocol_fields::Pieces;

// Answers a request, or else None where the line is none. room is for the octets of its fields.
pub fn reply(time_len: u8, kind: &[u8], fields: Pieces<'_>, room: &mut [u8]) -> Option<()> {
    match kind {
        b"strict" => read::judge(time_len, fields, room),
        b"read" => read::read(time_len, fields, room),
        b"create" => write::create(time_len, fields, room),
        b"reserve" => write::reserve(time_len, fields, room),
        _ => None,
    }
}
