// The requests on the small-satellite profile.
use profile::{ProfileBuilder, ProfileTc};
use protocol_fields::items::Setter;
use protocol_fields::{Pieces, items, octets, show};
use space_packet::{CcsdsPacket, PusError};

// profile DATA
pub(crate) fn reply(mut fields: Pieces<'_>, room: &mut [u8]) -> Option<()> {
    let (data, _) = octets(fields.next()?, room)?;
    fields.end()?;
    match profile::judge(data) {
        Err(e) => show::refusal(e),
        Ok(r) => {
            show::sp(b"accept ", r.sp_header());
            show::sec(r.sec_header());
            show::place(r.total, r.start, r.end);
        }
    }
    Some(())
}

// pbuild SETTERS DATA BUF
pub(crate) fn build(mut fields: Pieces<'_>, room: &mut [u8]) -> Option<()> {
    let setters = Pieces::list(fields.next()?).checked(Setter::read)?;
    let (data, room) = octets(fields.next()?, room)?;
    let (buf, _) = octets(fields.next()?, room)?;
    fields.end()?;
    let data = items::taken(setters, data);
    match built(setters, data) {
        Err(e) => show::refusal(e),
        Ok(command) => {
            told(command, data);
            show::say(b" ");
            show::written(command.write_to_slice(data, buf), buf);
        }
    }
    Some(())
}

// The setters from left to right, up to the first that is refused.
fn built(setters: Pieces<'_>, data: &[u8]) -> Result<ProfileTc, PusError> {
    let mut builder = ProfileBuilder::new();
    for setter in setters.filter_map(Setter::read) {
        set(&mut builder, setter?)?;
    }
    builder.build(data)
}

// The data are none of the builder's: they are handed to it as it builds.
fn set(builder: &mut ProfileBuilder, setter: Setter) -> Result<(), PusError> {
    match setter {
        Setter::PacketId(id) => return builder.with_packet_id(id),
        Setter::SeqControl(psc) => return builder.with_packet_sequence_control(psc),
        Setter::SeqCount(count) => return builder.with_sequence_count(count),
        Setter::Ack(flags) => return builder.with_ack_flags(flags),
        Setter::Apid(apid) => return builder.with_apid(apid),
        Setter::MessageType(id) => builder.with_message_type_id(id),
        Setter::Service(n) => builder.with_service_type_id(n),
        Setter::Subtype(n) => builder.with_message_subtype_id(n),
        Setter::Source(n) => builder.with_source_id(n),
        Setter::Data => {}
    }
    Ok(())
}

// What a command says of itself. It always has a checksum.
fn told(command: ProfileTc, data: &[u8]) {
    match command.sp_header(data) {
        Err(e) => show::refusal(e),
        Ok(h) => show::sp(b"made ", h),
    }
    show::sec(command.sec_header());
    show::creator(
        true,
        command.len_written(data),
        command.calc_own_crc16(data),
    );
}
