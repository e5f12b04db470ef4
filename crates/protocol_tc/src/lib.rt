// The requests on telecommands, by their kinds. Each call answers a request, or else None where the line is none.
#![tactic(auto)]

mod plain;
mod read;
mod verdict;
mod write;

use protocol_fields::Pieces;
use tc_header::TcForm;

// A plain request, which is of PUS C. room is for the octets of its fields.
pub fn reply(kind: &[u8], fields: Pieces<'_>, room: &mut [u8]) -> Option<()> {
    match kind {
        b"crc" => plain::checksum(fields, room),
        b"verify" => plain::verify(fields, room),
        b"sphread" => plain::read(fields, room),
        b"sphwrite" => plain::write(fields, room),
        b"simple" => write::simple(fields),
        b"ack" => plain::ack(fields),
        b"consts" => plain::consts(fields),
        _ => reply_of_c(TcForm::PUS_C, kind, fields, room),
    }
}

// A request of PUS C with so many spare octets.
pub fn reply_in_c(spare_len: u8, kind: &[u8], fields: Pieces<'_>, room: &mut [u8]) -> Option<()> {
    reply_of_c(TcForm::pus_c(spare_len), kind, fields, room)
}

fn reply_of_c(form: TcForm, kind: &[u8], fields: Pieces<'_>, room: &mut [u8]) -> Option<()> {
    match kind {
        b"split" => verdict::split(form, fields, room),
        b"cmprr" => read::compare(form, fields, room),
        b"reserve" => write::reserve(form, fields, room),
        b"cmprc" => write::compare(form, fields, room),
        _ => reply_of(form, kind, fields, room),
    }
}

// A request of PUS A with a source ID of so many bits.
pub fn reply_in_a(
    source_width: u8,
    kind: &[u8],
    fields: Pieces<'_>,
    room: &mut [u8],
) -> Option<()> {
    reply_of(TcForm::pus_a(source_width), kind, fields, room)
}

fn reply_of(form: TcForm, kind: &[u8], fields: Pieces<'_>, room: &mut [u8]) -> Option<()> {
    match kind {
        b"strict" => verdict::judge(form, fields, room),
        b"read" => read::read(form, fields, room),
        b"create" => write::create(form, fields, room),
        b"build" => write::build(form, fields, room),
        _ => None,
    }
}
