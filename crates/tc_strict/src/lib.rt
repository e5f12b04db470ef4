// The strict verdict: octets are accepted exactly when they begin with a checksummed telecommand, of PUS C or of the form that is
// named, that the written rules produce.
#![tactic(auto)]

ghost use Rattle.space_packet.specs.Answer.{answer_of};
ghost use Rattle.std.specs.Prelude.{◌≡◌};
ghost use Rattle.tc_strict.specs.Verdict.{strict_in, strict_of};

use ecss::PusError;
use tc_header::TcForm;
use tc_read::PusTcRecord;

pub mod split;

// All reader checks with checksum; then packet version number, type, secondary header flag, PUS version, and the APID.
pub fn judge(s: &[u8]) -> Result<PusTcRecord, PusError>
    ensures { answer_of result ≡ strict_of s.now }
{
    judge_in(TcForm::PUS_C, s)
}

// The same of a form, which is refused first; last its spare octets, which are zeros.
pub fn judge_in(form: TcForm, s: &[u8]) -> Result<PusTcRecord, PusError>
    ensures { answer_of result ≡ strict_in form s.now }
{
    let record = PusTcRecord::new_in(form, s)?;
    tc_header::strict_rule(form, record.sp_header, form.sec_header_part(s))?;
    Ok(record)
}
