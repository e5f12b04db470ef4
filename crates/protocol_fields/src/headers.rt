// SP, SEC and TM. A number that fits its machine type but not the width of its field is a good one: it reaches the check.
use crate::{Pieces, flag, number};
use ecss::MessageTypeId;
use space_packet::{Apid, PacketId, PacketSequenceControl, PusError, SeqCount, SpHeader};
use tc_header::{AckFlags, PusTcSecondaryHeader};
use tm_header::PusTmSecondaryHeader;

// The value of a text, by its pieces between commas; None where there is one more than it has.
pub(crate) fn values<T: Drop, R: FnOnce(&mut Pieces<'_>) -> Option<T>>(
    s: &[u8],
    read: R,
) -> Option<T>
    requires { R.IsAlwaysCallable read }
{
    let mut values = Pieces::new(s, b',');
    let value = read(&mut values)?;
    values.end()?;
    Some(value)
}

// ---- the primary header

// The packet ID, or the refusal of an APID over its width.
pub(crate) fn packet_id(values: &mut Pieces<'_>) -> Option<Result<PacketId, PusError>> {
    let packet_type = crate::packet_type(values.next()?)?;
    let sec_header = flag(values.next()?)?;
    let apid = Apid::new(number(values.next()?)?);
    Some(apid.map(|apid| PacketId::new(packet_type, sec_header, apid)))
}

// The sequence control, or the refusal of a count over its width.
pub(crate) fn sequence_control(
    values: &mut Pieces<'_>,
) -> Option<Result<PacketSequenceControl, PusError>> {
    let flags = crate::seq_flags(values.next()?)?;
    let count = SeqCount::new(number(values.next()?)?);
    Some(count.map(|count| PacketSequenceControl::new(flags, count)))
}

// SP. An APID or a count over its width can be handed to no call, and is refused here. A version number over its own is left for the
// call that is asked, and is the refusal where one of these is over too.
pub fn sp(s: &[u8]) -> Option<Result<SpHeader, PusError>> {
    let mut values = Pieces::new(s, b',');
    let mut header = SpHeader::default();
    header.version = number(values.next()?)?;
    let packet_id = packet_id(&mut values)?;
    let psc = sequence_control(&mut values)?;
    header.data_len = number(values.next()?)?;
    values.end()?;
    Some(completed(header, packet_id, psc))
}

fn completed(
    mut header: SpHeader,
    packet_id: Result<PacketId, PusError>,
    psc: Result<PacketSequenceControl, PusError>,
) -> Result<SpHeader, PusError> {
    header.packet_id = packet_id.or_else(|e| header.check().and(Err(e)))?;
    header.psc = psc.or_else(|e| header.check().and(Err(e)))?;
    Ok(header)
}

// ---- the secondary headers

pub fn message_type(values: &mut Pieces<'_>) -> Option<MessageTypeId> {
    Some(MessageTypeId::new(number(values.next()?)?, number(values.next()?)?))
}

// SEC, or the refusal of acknowledgement flags over their width.
pub fn sec(s: &[u8]) -> Option<Result<PusTcSecondaryHeader, PusError>> {
    let mut values = Pieces::new(s, b',');
    let version = crate::version(values.next()?)?;
    let ack_flags = AckFlags::new_with_raw_value(number(values.next()?)?);
    let message_type_id = message_type(&mut values)?;
    let source_id = number(values.next()?)?;
    values.end()?;
    Some(ack_flags.map(|ack_flags| PusTcSecondaryHeader {
        message_type_id,
        source_id,
        ack_flags,
        version,
    }))
}

// TM. The library's own record holds any of its numbers.
pub fn tm(s: &[u8]) -> Option<PusTmSecondaryHeader> {
    let mut values = Pieces::new(s, b',');
    let header = PusTmSecondaryHeader {
        pus_version: crate::version(values.next()?)?,
        sc_time_ref_status: number(values.next()?)?,
        message_type_id: message_type(&mut values)?,
        msg_counter: number(values.next()?)?,
        dest_id: number(values.next()?)?,
    };
    values.end()?;
    Some(header)
}
