// The requests that read telemetry.
use protocol_fields::{Mode, Pieces, octets, show};
use space_packet::{CcsdsPacket, PusError};
use tm_read::PusTmRecord;

// strict DATA
pub(crate) fn judge(time_len: u8, mut fields: Pieces<'_>, room: &mut [u8]) -> Option<()> {
    let (data, _) = octets(fields.next()?, room)?;
    fields.end()?;
    match tm_strict::judge(time_len, data) {
        Err(e) => show::refusal(e),
        Ok(record) => report(b"accept ", record, tm_read::timestamp(time_len, data, true)),
    }
    Some(())
}

// read MODE DATA
pub(crate) fn read(time_len: u8, mut fields: Pieces<'_>, room: &mut [u8]) -> Option<()> {
    let mode = Mode::read(fields.next()?)?;
    let (data, _) = octets(fields.next()?, room)?;
    fields.end()?;
    match read_as(time_len, mode, data) {
        Err(e) => show::refusal(e),
        Ok(record) => {
            let time = tm_read::timestamp(time_len, data, mode.has_checksum());
            report(b"ok ", record, time);
            show::stored(record.crc16());
        }
    }
    Some(())
}

// One call has both forms of the checksum.
fn read_as(time_len: u8, mode: Mode, data: &[u8]) -> Result<PusTmRecord, PusError> {
    match mode {
        Mode::New | Mode::NoTable => PusTmRecord::new(time_len, data),
        Mode::NoVerify => PusTmRecord::new_no_checksum_verification(time_len, data, true),
        Mode::NoCrc => PusTmRecord::new_no_checksum(time_len, data),
    }
}

// SP TM TIME total data_start data_len, after some words.
fn report(words: &[u8], r: PusTmRecord, time: &[u8]) {
    show::sp(words, r.sp_header());
    show::tm(r.sec_header());
    show::octets(time);
    show::place(r.total, r.start, r.end);
}
