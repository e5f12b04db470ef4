// The items of EDITS and SETTERS that more than one kind of packet has. All of them are read with the line, and each once more as it
// is run.
use crate::headers::{message_type, packet_id, sequence_control, values};
use crate::{Pieces, flag, number, pair};
use ecss::{MessageTypeId, PusVersion};
use space_packet::{
    Apid, PacketId, PacketSequenceControl, PacketType, PusError, SeqCount, SequenceFlags, SpHeader,
};
use tc_header::AckFlags;

// ---- edits

// A change of a creator.
#[derive(Clone, Copy)]
pub enum Edit {
    Apid(Apid),
    SeqCount(SeqCount),
    SeqFlags(SequenceFlags),
    Sp(SpEdit),
    Sec(SecEdit),
    Update,
}

// Those of the primary header that have no call of their own.
#[derive(Clone, Copy)]
pub enum SpEdit {
    Pvn(u8),
    PacketType(PacketType),
    SecHeader(bool),
    DataLen(u16),
}

// Those of the secondary header that have none.
#[derive(Clone, Copy)]
pub enum SecEdit {
    Service(u8),
    Subtype(u8),
    Version(PusVersion),
}

impl Edit {
    // The edit, or the refusal of a number over the width of its field, which can be handed to no call.
    pub fn read(item: &[u8]) -> Option<Result<Edit, PusError>> {
        if let b"upd" = item {
            return Some(Ok(Edit::Update));
        }
        let (name, value) = pair(item, b'=')?;
        match name {
            b"apid" => Some(Apid::new(number(value)?).map(Edit::Apid)),
            b"scount" => Some(SeqCount::new(number(value)?).map(Edit::SeqCount)),
            b"sflags" => Some(Ok(Edit::SeqFlags(crate::seq_flags(value)?))),
            b"pvn" => Some(Ok(Edit::Sp(SpEdit::Pvn(number(value)?)))),
            b"type" => Some(Ok(Edit::Sp(SpEdit::PacketType(crate::packet_type(value)?)))),
            b"shf" => Some(Ok(Edit::Sp(SpEdit::SecHeader(flag(value)?)))),
            b"dlen" => Some(Ok(Edit::Sp(SpEdit::DataLen(number(value)?)))),
            b"service" => Some(Ok(Edit::Sec(SecEdit::Service(number(value)?)))),
            b"subtype" => Some(Ok(Edit::Sec(SecEdit::Subtype(number(value)?)))),
            b"version" => Some(Ok(Edit::Sec(SecEdit::Version(crate::version(value)?)))),
            _ => None,
        }
    }
}

impl SpEdit {
    pub fn make(self, header: &mut SpHeader) {
        match self {
            SpEdit::Pvn(n) => header.version = n,
            SpEdit::PacketType(packet_type) => header.set_packet_type(packet_type),
            SpEdit::SecHeader(true) => header.set_sec_header_flag(),
            SpEdit::SecHeader(false) => header.clear_sec_header_flag(),
            SpEdit::DataLen(n) => header.data_len = n,
        }
    }
}

impl SecEdit {
    // Makes the change to these two fields of the header.
    pub fn make(self, id: &mut MessageTypeId, version: &mut PusVersion) {
        match self {
            SecEdit::Service(n) => id.type_id = n,
            SecEdit::Subtype(n) => id.subtype_id = n,
            SecEdit::Version(v) => *version = v,
        }
    }
}

// ---- setters

// A call of a builder.
#[derive(Clone, Copy)]
pub enum Setter {
    PacketId(PacketId),
    SeqControl(PacketSequenceControl),
    SeqCount(SeqCount),
    MessageType(MessageTypeId),
    Service(u8),
    Subtype(u8),
    Source(u16),
    Ack(AckFlags),
    Apid(Apid),
    Data,
}

impl Setter {
    // The setter, or the refusal of a number over the width of its field, which can be handed to no call.
    pub fn read(item: &[u8]) -> Option<Result<Setter, PusError>> {
        let (name, value) = pair(item, b'=')?;
        match name {
            b"pid" => Some(values(value, packet_id)?.map(Setter::PacketId)),
            b"psc" => Some(values(value, sequence_control)?.map(Setter::SeqControl)),
            b"mtid" => Some(Ok(Setter::MessageType(values(value, message_type)?))),
            b"scount" => Some(SeqCount::new(number(value)?).map(Setter::SeqCount)),
            b"service" => Some(Ok(Setter::Service(number(value)?))),
            b"subtype" => Some(Ok(Setter::Subtype(number(value)?))),
            b"source" => Some(Ok(Setter::Source(number(value)?))),
            b"ack" => Some(AckFlags::new_with_raw_value(number(value)?).map(Setter::Ack)),
            b"apid" => Some(Apid::new(number(value)?).map(Setter::Apid)),
            b"data" if matches!(value, b"1") => Some(Ok(Setter::Data)),
            _ => None,
        }
    }
}

// DATA where one of the setters takes it.
pub fn taken<'a>(mut setters: Pieces<'_>, data: &'a [u8]) -> &'a [u8] {
    if setters.any(|item| matches!(item, b"data=1")) {
        data
    } else {
        &[]
    }
}
