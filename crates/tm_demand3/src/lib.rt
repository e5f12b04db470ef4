// What the customer asks of the strict verdict on telemetry, as theorems: specs/Rules.antt has the words, proofs/Demand3.antt the
// theorems.
//
// Theorems 1, 2, 4, 5, 7, 8 and 9, and that nothing is accepted both as telemetry and as a telecommand, are also proved here of the calls
// themselves: the functions below write packets of a time length, in either checksum form, and have octets judged. They are there
// for their contracts, and nothing calls them.
#![tactic(auto)]

ghost use Rattle.std.specs.Prelude.{◌≡◌, true, length};
ghost use Rattle.space_packet.specs.Wrote.{Wrote};
ghost use Rattle.space_packet.specs.Answer.{gives, answer_of};
ghost use Rattle.ecss.specs.Kind.{Rules};
ghost use Rattle.ecss_write.specs.Writer.{packet_by, Handed};
ghost use Rattle.reserve.specs.Reserve.{finish_in, finished};
ghost use Rattle.exactness.specs.Demand3.{RefusesChanged, RefusesUpToThree, Exact, Fits, made_of};
ghost use Rattle.tm_header.specs.Header.{time_limit, timed, tm};
ghost use Rattle.tm_write.specs.Report.{report_by};
ghost use Rattle.tm_write.specs.Creator.{header_with, PacketWrote};
ghost use Rattle.tm_read.specs.Read.{start_in};
ghost use Rattle.tm_demand3.specs.Rules.{NotBoth, report_for, Accepts};

use ecss::CreatorConfig;
use space_packet::{PusError, SpHeader};
use tc_header::TcForm;
use tc_read::PusTcRecord;
use tm_header::PusTmSecondaryHeader;
use tm_read::PusTmRecord;
use tm_reserved::PusTmCreatorWithReservedSourceData;
use tm_write::PusTmCreator;

// ---- theorems 1, 2, 7 and 8: octets are judged

fn judged(time_len: u8, octets: &[u8]) -> Result<PusTmRecord, PusError>
    ensures { time_limit time_len ≡ gives tt → Exact (tm time_len) (report_for time_len) (answer_of result) octets.now }
{
    tm_strict::judge(time_len, octets)
}

// ---- theorem 4: a packet is written, and judged

fn write(
    creator: PusTmCreator,
    time: &[u8],
    source_data: &[u8],
    buf: &mut [u8],
    table: bool,
) -> Result<usize, PusError>
    ensures { PacketWrote creator time.now source_data.now buf.old result buf.new }
{
    if table {
        return creator.write_to_slice(time, source_data, buf);
    }
    creator.write_to_slice_crc_no_table(time, source_data, buf)
}

fn finish(
    held: PusTmCreatorWithReservedSourceData,
    buf: &mut [u8],
    table: bool,
) -> Result<usize, PusError>
    ensures { Wrote (finish_in (start_in held.time_len) held.held (length buf.old)) (finished held.held buf.old) buf.old result buf.new }
{
    if table {
        return held.finalize(buf);
    }
    held.finalize_checksum_no_table(buf)
}

fn written(
    creator: PusTmCreator,
    time: &[u8],
    source_data: &[u8],
    buf: &mut [u8],
    table: bool,
) -> Result<PusTmRecord, PusError>
    ensures { time_limit creator.time_len ≡ gives tt → creator.has_checksum ≡ true
        → Rules (tm creator.time_len) (packet_by creator.sp_header (header_with creator time.now) source_data.now)
        → Fits (tm creator.time_len) source_data.now buf.old
        → Accepts creator.time_len result (packet_by creator.sp_header (header_with creator time.now) source_data.now) }
{
    let _ = write(creator, time, source_data, buf, table);
    tm_strict::judge(creator.time_len(), buf)
}

fn built(
    time_len: u8,
    sp_header: SpHeader,
    sec_header: PusTmSecondaryHeader,
    time: &[u8],
    source_data: &[u8],
    buf: &mut [u8],
    table: bool,
) -> Result<PusTmRecord, PusError>
    ensures { time_limit time_len ≡ gives tt → Handed (tm time_len) (packet_by sp_header (timed sec_header time.now) source_data.now)
        → Fits (tm time_len) source_data.now buf.old
        → Accepts time_len result (made_of (report_by time_len) (packet_by sp_header (timed sec_header time.now) source_data.now)) }
{
    let config = CreatorConfig::default();
    let creator = PusTmCreator::new(time_len, sp_header, sec_header, time, source_data, config)?;
    written(creator, time, source_data, buf, table)
}

fn reserved(
    time_len: u8,
    sp_header: SpHeader,
    sec_header: PusTmSecondaryHeader,
    time: &[u8],
    source_data: &[u8],
    buf: &mut [u8],
    table: bool,
) -> Result<PusTmRecord, PusError>
    ensures { time_limit time_len ≡ gives tt → Handed (tm time_len) (packet_by sp_header (timed sec_header time.now) source_data.now)
        → Fits (tm time_len) source_data.now buf.old
        → Accepts time_len result (made_of (report_by time_len) (packet_by sp_header (timed sec_header time.now) source_data.now)) }
{
    let held = PusTmCreatorWithReservedSourceData::new(
        time_len,
        buf,
        sp_header,
        sec_header,
        time,
        source_data.len(),
        true,
    )?;
    let _ = held.fill_source_data(source_data, buf);
    let _ = finish(held, buf, table);
    tm_strict::judge(time_len, buf)
}

// ---- theorems 5 and 9: octets are judged, and so are the same with bits of them changed

#[derive(Clone, Copy, PartialEq, Eq)]
struct Verdicts {
    sent: Result<PusTmRecord, PusError>,
    received: Result<PusTmRecord, PusError>,
}

fn changed(time_len: u8, sent: &[u8], received: &[u8]) -> Verdicts
    ensures { time_limit time_len ≡ gives tt
        → RefusesChanged (answer_of result.sent) sent.now (answer_of result.received) received.now
        × RefusesUpToThree (answer_of result.sent) sent.now (answer_of result.received) received.now }
{
    Verdicts {
        sent: tm_strict::judge(time_len, sent),
        received: tm_strict::judge(time_len, received),
    }
}

// ---- octets are judged as telemetry and as a telecommand, and not accepted as both

#[derive(Clone, Copy, PartialEq, Eq)]
struct AsBoth {
    telemetry: Result<PusTmRecord, PusError>,
    command: Result<PusTcRecord, PusError>,
}

#[tactic(auto, using(crate::proofs::Demand3::never_both))]
fn both_kinds(time_len: u8, form: TcForm, octets: &[u8]) -> AsBoth
    ensures { NotBoth (answer_of result.telemetry) (answer_of result.command) }
{
    AsBoth {
        telemetry: tm_strict::judge(time_len, octets),
        command: tc_strict::judge_in(form, octets),
    }
}
