// The requests that read telecommands.
use protocol_fields::{Mode, Pieces, octets, show};
use space_packet::{CcsdsPacket, PusError};
use tc_header::TcForm;
use tc_read::PusTcRecord;

// PUS C has a call for each mode. The other forms have one for both forms of the checksum.
pub(crate) fn read_in(form: TcForm, mode: Mode, s: &[u8]) -> Result<PusTcRecord, PusError> {
    if form == TcForm::PUS_C {
        return read_c(mode, s);
    }
    match mode {
        Mode::New | Mode::NoTable => PusTcRecord::new_in(form, s),
        Mode::NoVerify => PusTcRecord::new_no_checksum_verification_in(form, s, true),
        Mode::NoCrc => PusTcRecord::new_no_checksum_in(form, s),
    }
}

fn read_c(mode: Mode, s: &[u8]) -> Result<PusTcRecord, PusError> {
    match mode {
        Mode::New => PusTcRecord::new(s),
        Mode::NoTable => PusTcRecord::new_checksum_no_table(s),
        Mode::NoVerify => PusTcRecord::new_no_checksum_verification(s, true),
        Mode::NoCrc => PusTcRecord::new_no_checksum(s),
    }
}

// read MODE DATA
pub(crate) fn read(form: TcForm, mut fields: Pieces<'_>, room: &mut [u8]) -> Option<()> {
    let mode = Mode::read(fields.next()?)?;
    let (data, _) = octets(fields.next()?, room)?;
    fields.end()?;
    match read_in(form, mode, data) {
        Err(e) => show::refusal(e),
        Ok(record) => {
            report(b"ok ", record);
            show::stored(record.crc16());
        }
    }
    Some(())
}

// SP SEC total data_start data_len, after some words.
pub(crate) fn report(words: &[u8], r: PusTcRecord) {
    show::sp(words, r.sp_header());
    show::sec(r.sec_header());
    show::place(r.total, r.start, r.end);
}

// cmprr MODE DATA MODE DATA; a form that is refused is the whole answer
pub(crate) fn compare(form: TcForm, mut fields: Pieces<'_>, room: &mut [u8]) -> Option<()> {
    let mode = Mode::read(fields.next()?)?;
    let (data, room) = octets(fields.next()?, room)?;
    let other_mode = Mode::read(fields.next()?)?;
    let (other, _) = octets(fields.next()?, room)?;
    fields.end()?;
    match form.check() {
        Err(e) => show::refusal(e),
        Ok(()) => compared(form, mode, data, other_mode, other),
    }
    Some(())
}

fn compared(form: TcForm, mode: Mode, data: &[u8], other_mode: Mode, other: &[u8]) {
    let first = read_in(form, mode, data).map(|_| ());
    let second = read_in(form, other_mode, other).map(|_| ());
    if first.and(second).is_err() {
        show::check(first);
        show::say(b" ");
        return show::check(second);
    }
    let has = mode.has_checksum();
    let other_has = other_mode.has_checksum();
    let flags = [
        u64::from(tc_compare::eq_reader_in(form, data, has, other, other_has)),
        u64::from(tc_compare::eq_reader_in(form, other, other_has, data, has)),
    ];
    show::list(b"", b' ', &flags);
}
