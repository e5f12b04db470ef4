// What is asked of the small-satellite profile, as theorems: specs/Within.antt and specs/First.antt have the words, proofs/Exactly.antt,
// proofs/First.antt and proofs/Building.antt the theorems.
//
// They are also proved here of the calls themselves. The functions below are there for their contracts, and nothing calls them.
#![tactic(auto)]

ghost use Rattle.std.specs.Prelude.{◌≤◌, ◌≡◌, length};
ghost use Rattle.space_packet.specs.Answer.{gives, answer_of};
ghost use Rattle.tc_header.specs.Header.{pus_c};
ghost use Rattle.tc_read.specs.declared.PusTcRecord.{PusTcRecord};
ghost use Rattle.exactness.specs.Demand3.{RefusesChanged, total_for};
ghost use Rattle.profile.specs.Rules.{profile_of};
ghost use Rattle.profile.specs.Builder.{built_for, CommandWrote, builder_of};
ghost use Rattle.profile.specs.declared.ProfileTc.{ProfileTc};
ghost use Rattle.profile_exact.specs.First.{TellsFirst};
ghost use Rattle.profile_exact.specs.Within.{Exactly, RefusesAnyThree, AcceptedIfWritten, IsAccepted, Fitting, fields_of, Again};

use ecss::PusPacket;
use profile::{ProfileBuilder, ProfileTc};
use space_packet::{CcsdsPacket, PusError};
use tc_read::PusTcRecord;

// ---- the verdict

fn judged(octets: &[u8]) -> Result<PusTcRecord, PusError>
    ensures { Exactly (answer_of result) octets.now × TellsFirst (answer_of result) octets.now }
{
    profile::judge(octets)
}

// Octets are judged, and so are the same with bits of them changed.
#[derive(Clone, Copy, PartialEq, Eq)]
struct Verdicts {
    sent: Result<PusTcRecord, PusError>,
    received: Result<PusTcRecord, PusError>,
}

fn changed(sent: &[u8], received: &[u8]) -> Verdicts
    ensures { RefusesChanged (answer_of result.sent) sent.now (answer_of result.received) received.now
        × RefusesAnyThree (answer_of result.sent) sent.now (answer_of result.received) received.now }
{
    Verdicts {
        sent: profile::judge(sent),
        received: profile::judge(received),
    }
}

// ---- what the builder makes is accepted

// What a write answers, and the verdict on the buffer that it leaves.
#[derive(Clone, Copy, PartialEq, Eq)]
struct Outcome {
    size: Result<usize, PusError>,
    verdict: Result<PusTcRecord, PusError>,
}

// Whatever the command holds, whatever the data and the buffer are.
fn written(command: ProfileTc, app_data: &[u8], buf: &mut [u8]) -> Outcome
    ensures { AcceptedIfWritten command app_data.now result }
{
    let size = command.write_to_slice(app_data, buf);
    let verdict = profile::judge(buf);
    Outcome { size, verdict }
}

// A builder's command, written: what its build refuses is not asked here.
fn made(builder: ProfileBuilder, app_data: &[u8], buf: &mut [u8]) -> Result<usize, PusError>
    ensures { (t : ProfileTc) → built_for builder.0 (length app_data.now) ≡ gives t
        → CommandWrote t app_data.now buf.old result buf.new }
{
    builder.build(app_data)?.write_to_slice(app_data, buf)
}

// In any buffer with room.
fn built(builder: ProfileBuilder, app_data: &[u8], buf: &mut [u8]) -> Outcome
    ensures { (t : ProfileTc) → built_for builder.0 (length app_data.now) ≡ gives t
        → total_for pus_c app_data.now ≤ length buf.old → IsAccepted t app_data.now result }
{
    let size = made(builder, app_data, buf);
    let verdict = profile::judge(buf);
    Outcome { size, verdict }
}

// ---- every accepted packet can be built

// By the setters, what is reported of a packet.
fn copied(report: PusTcRecord) -> ProfileBuilder
    ensures { Fitting report → result ≡ builder_of (fields_of report) }
{
    let mut builder = ProfileBuilder::new();
    builder.with_message_type_id(report.message_type_id());
    builder.with_source_id(report.source_id());
    let _ = builder.with_apid(report.apid());
    let _ = builder.with_packet_sequence_control(report.psc());
    let _ = builder.with_ack_flags(report.ack_flags());
    builder
}

// Octets that the verdict accepts are built anew, of what it reports and their data.
fn again(octets: &[u8], buf: &mut [u8]) -> Result<usize, PusError>
    ensures { (p : PusTcRecord) → profile_of octets.now ≡ gives p → p.total ≤ length buf.old
        → Again octets.now p.total buf.old result buf.new }
{
    let report = profile::judge(octets)?;
    made(copied(report), tc_read::app_data(octets, true), buf)
}
