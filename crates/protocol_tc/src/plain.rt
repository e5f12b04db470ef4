// The requests on checksums, primary headers, acknowledgement flags and constants.
use protocol_fields::{Pieces, headers, number, octets, show};
use space_packet::{MAX_APID, MAX_SEQ_COUNT, SpHeader};
use tc_header::{AckFlags, PusTcSecondaryHeader};
use tc_write::PUS_TC_MIN_LEN_WITHOUT_APP_DATA;

// ---- checksums

// crc DATA
pub(crate) fn checksum(mut fields: Pieces<'_>, room: &mut [u8]) -> Option<()> {
    let (data, _) = octets(fields.next()?, room)?;
    fields.end()?;
    let with_table = crc::crc_ccitt_false(data);
    show::word(with_table);
    show::say(b" ");
    show::word(crc::crc_ccitt_false_no_table(data));
    show::say(b" ");
    show::word(with_table);
    Some(())
}

// verify DATA CCCC
pub(crate) fn verify(mut fields: Pieces<'_>, room: &mut [u8]) -> Option<()> {
    let (data, _) = octets(fields.next()?, room)?;
    let crc16 = text::word(fields.next()?)?;
    fields.end()?;
    let flags = [
        u64::from(ecss::verify_crc16_ccitt_false_from_raw(data)),
        u64::from(ecss::verify_crc16_ccitt_false_from_raw_no_table(data)),
    ];
    show::list(b"", b' ', &flags);
    show::say(b" ");
    show::check(ecss::verify_crc16_ccitt_false_from_raw_to_pus_error(data, crc16));
    show::say(b" ");
    show::check(ecss::verify_crc16_ccitt_false_from_raw_to_pus_error_no_table(data, crc16));
    Some(())
}

// ---- primary headers

// sphread DATA
pub(crate) fn read(mut fields: Pieces<'_>, room: &mut [u8]) -> Option<()> {
    let (data, _) = octets(fields.next()?, room)?;
    fields.end()?;
    match SpHeader::from_be_bytes(data) {
        Err(e) => show::refusal(e),
        Ok(h) => {
            let v = [
                h.packet_len() as u64,
                SpHeader::rest_of_be_bytes(data).len() as u64,
                u64::from(h.packet_id_raw()),
                u64::from(h.psc_raw()),
            ];
            show::sp(b"ok ", h);
            show::list(b" ", b' ', &v);
        }
    }
    Some(())
}

// sphwrite SP BUF
pub(crate) fn write(mut fields: Pieces<'_>, room: &mut [u8]) -> Option<()> {
    let header = headers::sp(fields.next()?)?;
    let (buf, _) = octets(fields.next()?, room)?;
    fields.end()?;
    show::written(header.and_then(|h| h.write_to_slice(buf)), buf);
    Some(())
}

// ---- acknowledgement flags

// ack N
pub(crate) fn ack(mut fields: Pieces<'_>) -> Option<()> {
    let flags = AckFlags::new_with_raw_value(number(fields.next()?)?);
    fields.end()?;
    match flags {
        Err(e) => show::refusal(e),
        Ok(f) => {
            let v = [
                u64::from(f.acceptance()),
                u64::from(f.start()),
                u64::from(f.progress()),
                u64::from(f.completion()),
            ];
            show::list(b"", b' ', &v);
        }
    }
    Some(())
}

// ---- constants

// consts
pub(crate) fn consts(fields: Pieces<'_>) -> Option<()> {
    fields.end()?;
    show::number(b"ALL=", u64::from(AckFlags::ALL.raw_value()));
    show::number(b" HEADER_LEN=", PusTcSecondaryHeader::HEADER_LEN as u64);
    show::number(b" LENGTH=", SpHeader::LENGTH as u64);
    show::number(b" MIN=", PUS_TC_MIN_LEN_WITHOUT_APP_DATA as u64);
    show::number(b" DEFAULT=", u64::from(AckFlags::default().raw_value()));
    show::number(b" MAX_APID=", u64::from(MAX_APID.value()));
    show::number(b" MAX_SEQ_COUNT=", u64::from(MAX_SEQ_COUNT.value()));
    Some(())
}
