// The strict verdict on telemetry: octets are accepted exactly when they begin with a checksummed telemetry packet of PUS C, with a
// time field as long as the mission fixes it, that the written rules produce.
#![tactic(auto)]

ghost use Rattle.std.specs.Prelude.{◌≡◌};
ghost use Rattle.space_packet.specs.Answer.{answer_of};
ghost use Rattle.tm_strict.specs.Verdict.{strict_in};

use ecss::{PusError, PusVersion};
use space_packet::{CCSDS_HEADER_LEN, PacketType};
use tm_read::PusTmRecord;

// The length of the time; all reader checks with checksum; then packet version number, type, secondary header flag, PUS version and
// idle APID: 14, 2, 4, 9, 13, 11, 3, 12.
#[tactic(auto, using(crate::proofs::Verdicts::verdict_is), unfolding(space_packet::specs::Answer::and_then))]
pub fn judge(time_len: u8, s: &[u8]) -> Result<PusTmRecord, PusError>
    ensures { answer_of result ≡ strict_in time_len s.now }
{
    let record = PusTmRecord::new(time_len, s)?;
    ecss::pus_rule(
        PacketType::Tm,
        PusError::PacketTypeTc,
        PusVersion::PusC.raw_value(),
        record.sp_header,
        space_packet::octet_at(s, CCSDS_HEADER_LEN),
    )?;
    Ok(record)
}
