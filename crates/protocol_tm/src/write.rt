// The requests that write telemetry.
use ecss::CreatorConfig;
use protocol_fields::items::Edit;
use protocol_fields::{Fin, Pieces, config, flag, headers, number, octets, pair, show};
use space_packet::{CcsdsPacket, PusError, SpHeader};
use tm_header::PusTmSecondaryHeader;
use tm_reserved::PusTmCreatorWithReservedSourceData;
use tm_write::PusTmCreator;

// What a packet is made of; its data and the edits stand beside it. What no call can be handed is refused after the time. All else is
// left for the call that is asked, the time too.
#[derive(Clone, Copy)]
struct Heads<'a> {
    time_len: u8,
    sp: Result<SpHeader, PusError>,
    tm: PusTmSecondaryHeader,
    time: &'a [u8],
}

impl Heads<'_> {
    fn header(self) -> Result<SpHeader, PusError> {
        self.sp.or_else(|e| tm_header::check_time(self.time_len, self.time.len()).and(Err(e)))
    }

    // The creator, its edits made from left to right, up to the first that is refused.
    fn creator(
        self,
        config: CreatorConfig,
        data: &[u8],
        edits: Pieces<'_>,
    ) -> Result<PusTmCreator, PusError> {
        let Heads {
            time_len,
            tm,
            time,
            ..
        } = self;
        let mut creator = PusTmCreator::new(time_len, self.header()?, tm, time, data, config)?;
        for edit in edits.filter_map(TmEdit::read) {
            make(edit?, &mut creator, time, data)?;
        }
        Ok(creator)
    }

    fn reserved(
        self,
        data_len: usize,
        has_checksum: bool,
        buf: &mut [u8],
    ) -> Result<PusTmCreatorWithReservedSourceData, PusError> {
        let Heads {
            time_len,
            tm,
            time,
            ..
        } = self;
        let header = self.header()?;
        PusTmCreatorWithReservedSourceData::new(
            time_len,
            buf,
            header,
            tm,
            time,
            data_len,
            has_checksum,
        )
    }
}

// ---- edits

#[derive(Clone, Copy)]
enum TmEdit {
    Status(u8),
    Counter(u16),
    Dest(u16),
    Common(Edit),
}

impl TmEdit {
    fn read(item: &[u8]) -> Option<Result<TmEdit, PusError>> {
        match pair(item, b'=') {
            Some((b"status", n)) => Some(Ok(TmEdit::Status(number(n)?))),
            Some((b"counter", n)) => Some(Ok(TmEdit::Counter(number(n)?))),
            Some((b"dest", n)) => Some(Ok(TmEdit::Dest(number(n)?))),
            _ => Some(Edit::read(item)?.map(TmEdit::Common)),
        }
    }
}

fn make(
    edit: TmEdit,
    creator: &mut PusTmCreator,
    time: &[u8],
    data: &[u8],
) -> Result<(), PusError> {
    match edit {
        TmEdit::Status(n) => return creator.set_sc_time_ref_status(n),
        TmEdit::Counter(n) => creator.set_msg_counter(n),
        TmEdit::Dest(n) => creator.set_dest_id(n),
        TmEdit::Common(Edit::Apid(apid)) => return creator.set_apid(apid),
        TmEdit::Common(Edit::SeqCount(count)) => return creator.set_seq_count(count),
        TmEdit::Common(Edit::SeqFlags(flags)) => creator.set_seq_flags(flags),
        TmEdit::Common(Edit::Sp(edit)) => {
            let mut header = creator.sp_header();
            edit.make(&mut header);
            return creator.set_sp_header(header);
        }
        TmEdit::Common(Edit::Sec(edit)) => {
            let mut second = creator.sec_header();
            edit.make(&mut second.message_type_id, &mut second.pus_version);
            return creator.set_sec_header(second);
        }
        TmEdit::Common(Edit::Update) => return creator.update_ccsds_data_len(time, data),
    }
    Ok(())
}

// ---- create

// create SP TM TIME set has DATA EDITS BUF
pub(crate) fn create(time_len: u8, mut fields: Pieces<'_>, room: &mut [u8]) -> Option<()> {
    let sp = headers::sp(fields.next()?)?;
    let tm = headers::tm(fields.next()?)?;
    let (time, room) = octets(fields.next()?, room)?;
    let config = config(&mut fields)?;
    let (data, room) = octets(fields.next()?, room)?;
    let edits = Pieces::list(fields.next()?).checked(TmEdit::read)?;
    let field = fields.next()?;
    let (buf, _) = octets(field, room)?;
    fields.end()?;
    let heads = Heads {
        time_len,
        sp,
        tm,
        time,
    };
    match heads.creator(config, data, edits) {
        Err(e) => show::refusal(e),
        Ok(c) => made(c, time, data, field, buf),
    }
    Some(())
}

// The twelve parts that tell of a creator. BUF is the field.
fn made(c: PusTmCreator, time: &[u8], data: &[u8], field: &[u8], buf: &mut [u8]) {
    show::sp(b"made ", c.sp_header());
    show::tm(c.sec_header());
    show::creator(
        c.has_checksum(),
        c.len_written(time, data),
        c.calc_own_crc16(time, data),
    );
    show::write_afresh(field, buf, |buf| c.write_to_slice(time, data, buf));
    show::write_afresh(
        field,
        buf,
        |buf| c.write_to_slice_crc_no_table(time, data, buf),
    );
    show::write_afresh(field, buf, |buf| c.write_to_slice_no_crc(time, data, buf));
}

// ---- reserve

// reserve SP TM TIME data_len has FILL FIN BUF
pub(crate) fn reserve(time_len: u8, mut fields: Pieces<'_>, room: &mut [u8]) -> Option<()> {
    let sp = headers::sp(fields.next()?)?;
    let tm = headers::tm(fields.next()?)?;
    let (time, room) = octets(fields.next()?, room)?;
    let data_len = number(fields.next()?)?;
    let has_checksum = flag(fields.next()?)?;
    let (fill, room) = octets(fields.next()?, room)?;
    let fin = Fin::read(fields.next()?)?;
    let (buf, _) = octets(fields.next()?, room)?;
    fields.end()?;
    if data_len < fill.len() {
        return None;
    }
    let heads = Heads {
        time_len,
        sp,
        tm,
        time,
    };
    match heads.reserved(data_len, has_checksum, buf) {
        Err(e) => {
            show::refusal(e);
            show::octets(buf);
        }
        Ok(w) => {
            show::say(b"ok");
            show::octets(buf);
            filled(w, fill, fin, buf);
        }
    }
    Some(())
}

fn filled(w: PusTmCreatorWithReservedSourceData, fill: &[u8], fin: Fin, buf: &mut [u8]) {
    show::reserved(
        w.len_written(),
        w.source_data_len(),
        w.source_data_bounds(buf.len()),
        w.source_data(buf).len(),
    );
    let _ = w.fill_source_data(fill, buf);
    show::say(b" ");
    let finished = match fin {
        Fin::Finalize => w.finalize(buf),
        Fin::NoTable => w.finalize_checksum_no_table(buf),
        Fin::NoChecksum => w.finalize_no_checksum(buf),
    };
    show::written(finished, buf);
}
