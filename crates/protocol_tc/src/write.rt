// The requests that write telecommands.
use crate::read;
use ecss::CreatorConfig;
use protocol_fields::items::{Edit, Setter};
use protocol_fields::{
    Fin, Mode, Pieces, config, flag, headers, items, number, octets, pair, show,
};
use space_packet::{Apid, CcsdsPacket, PusError, SpHeader};
use tc_header::{AckFlags, PusTcSecondaryHeader, TcForm};
use tc_reserved::PusTcCreatorWithReservedAppData;
use tc_write::{PusTcBuilder, PusTcCreator};

// ---- the creator

type Heads = Result<(SpHeader, PusTcSecondaryHeader), PusError>;

// SP SEC: both headers, or the first refusal: the form's, then those of SP's and SEC's fields.
fn heads(form: TcForm, fields: &mut Pieces<'_>) -> Option<Heads> {
    let sp = headers::sp(fields.next()?)?;
    let sec = headers::sec(fields.next()?)?;
    Some(both(form, sp, sec))
}

fn both(
    form: TcForm,
    sp: Result<SpHeader, PusError>,
    sec: Result<PusTcSecondaryHeader, PusError>,
) -> Heads {
    form.check()?;
    let header = sp?;
    let second = sec.or_else(|e| header.check().and(Err(e)))?;
    Ok((header, second))
}

// What a creator is made of; its data and the edits stand beside it.
#[derive(Clone, Copy)]
struct Creation {
    form: TcForm,
    heads: Heads,
    config: CreatorConfig,
}

impl Creation {
    // SP SEC set has
    fn read(form: TcForm, fields: &mut Pieces<'_>) -> Option<Creation> {
        Some(Creation {
            form,
            heads: heads(form, fields)?,
            config: config(fields)?,
        })
    }

    // The creator, its edits made from left to right, up to the first that is refused.
    fn creator(self, data: &[u8], edits: Pieces<'_>) -> Result<PusTcCreator, PusError> {
        let (header, second) = self.heads?;
        let mut creator = PusTcCreator::new_in(self.form, header, second, data, self.config)?;
        for edit in edits.filter_map(TcEdit::read) {
            make(edit?, &mut creator, data)?;
        }
        Ok(creator)
    }
}

// ---- edits

#[derive(Clone, Copy)]
enum TcEdit {
    Ack(AckFlags),
    Source(u16),
    Common(Edit),
}

impl TcEdit {
    fn read(item: &[u8]) -> Option<Result<TcEdit, PusError>> {
        match pair(item, b'=') {
            Some((b"ack", n)) => Some(AckFlags::new_with_raw_value(number(n)?).map(TcEdit::Ack)),
            Some((b"source", n)) => Some(Ok(TcEdit::Source(number(n)?))),
            _ => Some(Edit::read(item)?.map(TcEdit::Common)),
        }
    }
}

fn make(edit: TcEdit, creator: &mut PusTcCreator, data: &[u8]) -> Result<(), PusError> {
    match edit {
        TcEdit::Ack(flags) => creator.set_ack_flags(flags),
        TcEdit::Source(n) => creator.set_source_id(n),
        TcEdit::Common(Edit::Apid(apid)) => creator.set_apid(apid),
        TcEdit::Common(Edit::SeqCount(count)) => creator.set_seq_count(count),
        TcEdit::Common(Edit::SeqFlags(flags)) => {
            creator.set_seq_flags(flags);
            Ok(())
        }
        TcEdit::Common(Edit::Sp(edit)) => {
            let mut header = creator.sp_header();
            edit.make(&mut header);
            creator.set_sp_header(header)
        }
        TcEdit::Common(Edit::Sec(edit)) => {
            let mut second = creator.sec_header();
            edit.make(&mut second.message_type_id, &mut second.version);
            creator.set_sec_header(second)
        }
        TcEdit::Common(Edit::Update) => creator.update_ccsds_data_len(data),
    }
}

// ---- create

// create SP SEC set has DATA EDITS BUF
pub(crate) fn create(form: TcForm, mut fields: Pieces<'_>, room: &mut [u8]) -> Option<()> {
    let asked = Creation::read(form, &mut fields)?;
    let (data, room) = octets(fields.next()?, room)?;
    let edits = Pieces::list(fields.next()?).checked(TcEdit::read)?;
    let field = fields.next()?;
    let (buf, _) = octets(field, room)?;
    fields.end()?;
    answer(asked.creator(data, edits), data, field, buf);
    Some(())
}

// The refusal, or the twelve parts that tell of a creator. BUF is the field.
fn answer(r: Result<PusTcCreator, PusError>, data: &[u8], field: &[u8], buf: &mut [u8]) {
    match r {
        Err(e) => show::refusal(e),
        Ok(c) => {
            show::sp(b"made ", c.sp_header());
            show::sec(c.sec_header());
            show::creator(
                c.has_checksum(),
                c.len_written(data),
                c.calc_own_crc16(data),
            );
            show::write_afresh(field, buf, |buf| c.write_to_slice(data, buf));
            show::write_afresh(field, buf, |buf| c.write_to_slice_crc_no_table(data, buf));
            show::write_afresh(field, buf, |buf| c.write_to_slice_no_crc(data, buf));
        }
    }
}

// ---- build

// build SETTERS DATA BUF
pub(crate) fn build(form: TcForm, mut fields: Pieces<'_>, room: &mut [u8]) -> Option<()> {
    let setters = Pieces::list(fields.next()?).checked(TcSetter::read)?;
    let (data, room) = octets(fields.next()?, room)?;
    let field = fields.next()?;
    let (buf, _) = octets(field, room)?;
    fields.end()?;
    let data = items::taken(setters, data);
    answer(built(form, setters, data), data, field, buf);
    Some(())
}

// The setters from left to right, up to the first that is refused.
fn built(form: TcForm, setters: Pieces<'_>, data: &[u8]) -> Result<PusTcCreator, PusError> {
    let mut builder = PusTcCreator::builder_in(form)?;
    for setter in setters.filter_map(TcSetter::read) {
        set(&mut builder, setter?)?;
    }
    builder.build(data)
}

#[derive(Clone, Copy)]
enum TcSetter {
    Checksum(bool),
    Common(Setter),
}

impl TcSetter {
    fn read(item: &[u8]) -> Option<Result<TcSetter, PusError>> {
        match pair(item, b'=') {
            Some((b"cksum", n)) => Some(Ok(TcSetter::Checksum(flag(n)?))),
            _ => Some(Setter::read(item)?.map(TcSetter::Common)),
        }
    }
}

// The data are none of the builder's: they are handed to it as it builds.
fn set(builder: &mut PusTcBuilder, setter: TcSetter) -> Result<(), PusError> {
    match setter {
        TcSetter::Common(Setter::PacketId(id)) => return builder.with_packet_id(id),
        TcSetter::Common(Setter::SeqControl(psc)) => {
            return builder.with_packet_sequence_control(psc);
        }
        TcSetter::Common(Setter::SeqCount(count)) => return builder.with_sequence_count(count),
        TcSetter::Common(Setter::Source(n)) => return builder.with_source_id(n),
        TcSetter::Common(Setter::Ack(flags)) => return builder.with_ack_flags(flags),
        TcSetter::Common(Setter::Apid(apid)) => return builder.with_apid(apid),
        TcSetter::Common(Setter::MessageType(id)) => builder.with_message_type_id(id),
        TcSetter::Common(Setter::Service(n)) => builder.with_service_type_id(n),
        TcSetter::Common(Setter::Subtype(n)) => builder.with_message_subtype_id(n),
        TcSetter::Common(Setter::Data) => {}
        TcSetter::Checksum(has) => builder.with_checksum(has),
    }
    Ok(())
}

// ---- reserve

// reserve SP SEC data_len has FILL FIN BUF
pub(crate) fn reserve(form: TcForm, mut fields: Pieces<'_>, room: &mut [u8]) -> Option<()> {
    let heads = heads(form, &mut fields)?;
    let data_len = number(fields.next()?)?;
    let has_checksum = flag(fields.next()?)?;
    let (fill, room) = octets(fields.next()?, room)?;
    let fin = Fin::read(fields.next()?)?;
    let (buf, _) = octets(fields.next()?, room)?;
    fields.end()?;
    if data_len < fill.len() {
        return None;
    }
    match reserved(form, heads, data_len, has_checksum, buf) {
        Err(e) => {
            show::refusal(e);
            show::octets(buf);
        }
        Ok(w) => {
            show::say(b"ok");
            show::octets(buf);
            filled(w, fill, fin, buf);
        }
    }
    Some(())
}

fn reserved(
    form: TcForm,
    heads: Heads,
    data_len: usize,
    has_checksum: bool,
    buf: &mut [u8],
) -> Result<PusTcCreatorWithReservedAppData, PusError> {
    let (header, second) = heads?;
    PusTcCreatorWithReservedAppData::new_in(form, buf, header, second, data_len, has_checksum)
}

fn filled(w: PusTcCreatorWithReservedAppData, fill: &[u8], fin: Fin, buf: &mut [u8]) {
    show::reserved(
        w.len_written(),
        w.app_data_len(),
        w.app_data_bounds(buf.len()),
        w.app_data(buf).len(),
    );
    let _ = w.fill_app_data(fill, buf);
    show::say(b" ");
    let finished = match fin {
        Fin::Finalize => w.finalize(buf),
        Fin::NoTable => w.finalize_checksum_no_table(buf),
        Fin::NoChecksum => w.finalize_no_checksum(buf),
    };
    show::written(finished, buf);
}

// ---- cmprc

// cmprc MODE DATA SP SEC set has DATA EDITS
pub(crate) fn compare(form: TcForm, mut fields: Pieces<'_>, room: &mut [u8]) -> Option<()> {
    let mode = Mode::read(fields.next()?)?;
    let (packet, room) = octets(fields.next()?, room)?;
    let asked = Creation::read(form, &mut fields)?;
    let (data, _) = octets(fields.next()?, room)?;
    let edits = Pieces::list(fields.next()?).checked(TcEdit::read)?;
    fields.end()?;
    match read::read_in(form, mode, packet).and_then(|_| asked.creator(data, edits)) {
        Err(e) => show::refusal(e),
        Ok(c) => {
            let same = tc_compare::eq_creator_in(form, packet, mode.has_checksum(), c, data);
            show::list(b"", b' ', &[u64::from(same), u64::from(same)]);
        }
    }
    Some(())
}

// ---- new_simple

// simple APID SERVICE SUBTYPE
pub(crate) fn simple(mut fields: Pieces<'_>) -> Option<()> {
    let apid = Apid::new(number(fields.next()?)?);
    let id = headers::message_type(&mut fields)?;
    fields.end()?;
    match apid {
        Err(e) => show::refusal(e),
        Ok(apid) => {
            let header = SpHeader::new_from_apid(apid);
            show::sp(b"", header);
            show::say(b" ");
            let made = PusTcCreator::new_simple(header, id, &[], CreatorConfig::default());
            answer(made, &[], b"00000000000000000000000000", &mut [0; 13]);
        }
    }
    Some(())
}
