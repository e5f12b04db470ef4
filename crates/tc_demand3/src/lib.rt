// What the customer asks of the strict verdict, as theorems: specs/Rules.antt has the words, proofs/Demand3.antt the theorems.
//
// Theorems 1, 2, 4, 5, 7, 8 and 9 are also proved here of the calls themselves: the functions below write packets of a form, in either checksum
// form, and have octets judged. They are there for their contracts, and nothing calls them.
#![tactic(auto)]

ghost use Rattle.std.specs.Prelude.{◌≡◌, true, [], ◌∷◌, ◌++◌, length};
ghost use Rattle.space_packet.specs.Wrote.{Wrote};
ghost use Rattle.ecss.specs.Kind.{Rules};
ghost use Rattle.ecss_write.specs.Writer.{packet_by, Handed};
ghost use Rattle.reserve.specs.Reserve.{finish_in, finished};
ghost use Rattle.space_packet.specs.Answer.{gives, in_buffer, answer_of};
ghost use Rattle.exactness.specs.Demand3.{RefusesChanged, RefusesUpToThree, Exact, Fits, made_of};
ghost use Rattle.tc_header.specs.Form.{form_check};
ghost use Rattle.tc_header.specs.Header.{tc};
ghost use Rattle.tc_write.specs.Command.{command_in};
ghost use Rattle.tc_write.specs.Creator.{PacketWrote};
ghost use Rattle.tc_read.specs.Read.{start_in};
ghost use Rattle.tc_demand3.specs.Cases.{ping, ping_builder};
ghost use Rattle.tc_demand3.specs.Rules.{report_for, Accepts};

use ecss::MessageTypeId;
use space_packet::{Apid, PusError, SeqCount, SpHeader};
use tc_header::{AckFlags, PusTcSecondaryHeader, TcForm};
use tc_read::PusTcRecord;
use tc_reserved::PusTcCreatorWithReservedAppData;
use tc_write::{PusTcBuilder, PusTcCreator};

// ---- theorems 1, 2, 7 and 8: octets are judged

fn judged(form: TcForm, octets: &[u8]) -> Result<PusTcRecord, PusError>
    ensures { form_check form ≡ gives tt → Exact (tc form) (report_for form) (answer_of result) octets.now }
{
    tc_strict::judge_in(form, octets)
}

// ---- theorem 4: a packet is written, and judged

fn write(
    creator: PusTcCreator,
    app_data: &[u8],
    buf: &mut [u8],
    table: bool,
) -> Result<usize, PusError>
    ensures { PacketWrote creator app_data.now buf.old result buf.new }
{
    if table {
        return creator.write_to_slice(app_data, buf);
    }
    creator.write_to_slice_crc_no_table(app_data, buf)
}

fn finish(
    held: PusTcCreatorWithReservedAppData,
    buf: &mut [u8],
    table: bool,
) -> Result<usize, PusError>
    ensures { Wrote (finish_in (start_in held.form) held.held (length buf.old)) (finished held.held buf.old) buf.old result buf.new }
{
    if table {
        return held.finalize(buf);
    }
    held.finalize_checksum_no_table(buf)
}

fn written(
    creator: PusTcCreator,
    app_data: &[u8],
    buf: &mut [u8],
    table: bool,
) -> Result<PusTcRecord, PusError>
    ensures { form_check creator.form ≡ gives tt → creator.has_checksum ≡ true
        → Rules (tc creator.form) (packet_by creator.sp_header creator.sec_header app_data.now)
        → Fits (tc creator.form) app_data.now buf.old
        → Accepts creator.form result (packet_by creator.sp_header creator.sec_header app_data.now) }
{
    let _ = write(creator, app_data, buf, table);
    tc_strict::judge_in(creator.form(), buf)
}

fn built(
    builder: PusTcBuilder,
    app_data: &[u8],
    buf: &mut [u8],
    table: bool,
) -> Result<PusTcRecord, PusError>
    ensures { form_check builder.0.form ≡ gives tt → builder.0.has_checksum ≡ true
        → Handed (tc builder.0.form) (packet_by builder.0.sp_header builder.0.sec_header app_data.now)
        → Fits (tc builder.0.form) app_data.now buf.old
        → Accepts builder.0.form result (made_of (command_in builder.0.form) (packet_by builder.0.sp_header builder.0.sec_header app_data.now)) }
{
    written(builder.build(app_data)?, app_data, buf, table)
}

// ---- a ping command by the builder, with all four acknowledgements named: APID 291, count 5

#[tactic(auto, unfolding(space_packet::specs::Answer::refuse_if, space_packet::specs::Answer::set_if))]
fn ping_builder(apid: Apid, count: SeqCount) -> Result<PusTcBuilder, PusError>
    ensures { apid ≡ record { 0 = 291 } → count ≡ record { 0 = 5 } → answer_of result ≡ gives ping_builder }
{
    let mut builder = PusTcBuilder::new();
    builder.with_message_type_id(MessageTypeId::new(17, 1));
    builder.with_apid(apid)?;
    builder.with_sequence_count(count)?;
    builder.with_ack_flags(AckFlags::ALL)?;
    Ok(builder)
}

fn ping(apid: Apid, count: SeqCount, buf: &mut [u8]) -> Result<usize, PusError>
    ensures { apid ≡ record { 0 = 291 } → count ≡ record { 0 = 5 }
        → Wrote (in_buffer (length buf.old) 13) (ping 6 ++ (0x61 ∷ 0x6D ∷ [])) buf.old result buf.new }
{
    let creator = ping_builder(apid, count)?.build(&[])?;
    creator.write_to_slice(&[], buf)
}

fn reserved(
    form: TcForm,
    sp_header: SpHeader,
    sec_header: PusTcSecondaryHeader,
    app_data: &[u8],
    buf: &mut [u8],
    table: bool,
) -> Result<PusTcRecord, PusError>
    ensures { form_check form ≡ gives tt → Handed (tc form) (packet_by sp_header sec_header app_data.now)
        → Fits (tc form) app_data.now buf.old
        → Accepts form result (made_of (command_in form) (packet_by sp_header sec_header app_data.now)) }
{
    let held = PusTcCreatorWithReservedAppData::new_in(
        form,
        buf,
        sp_header,
        sec_header,
        app_data.len(),
        true,
    )?;
    let _ = held.fill_app_data(app_data, buf);
    let _ = finish(held, buf, table);
    tc_strict::judge_in(form, buf)
}

// ---- theorems 5 and 9: octets are judged, and so are the same with bits of them changed

#[derive(Clone, Copy)]
struct Verdicts {
    sent: Result<PusTcRecord, PusError>,
    received: Result<PusTcRecord, PusError>,
}

fn changed(form: TcForm, sent: &[u8], received: &[u8]) -> Verdicts
    ensures { form_check form ≡ gives tt
        → RefusesChanged (answer_of result.sent) sent.now (answer_of result.received) received.now
        × RefusesUpToThree (answer_of result.sent) sent.now (answer_of result.received) received.now }
{
    Verdicts {
        sent: tc_strict::judge_in(form, sent),
        received: tc_strict::judge_in(form, received),
    }
}
