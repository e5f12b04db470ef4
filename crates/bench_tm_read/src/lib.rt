// What the benchmark links: the checked read of telemetry, for a caller in C. In a crate of its own, as in a program that has this one use for it.
#![tactic(auto)]

ghost use Rattle.std.specs.Prelude.{◌≡◌};
ghost use Rattle.tm_read.specs.Read.{checked_in};
ghost use Rattle.bench_tm_read.specs.Numbers.{sum_of, read_number};

use ecss::PusPacket;
use space_packet::CcsdsPacket;
use tm_read::PusTmRecord;

// The octets of a time field.
const TIME_LEN: u8 = 7;

// The sum of what a record reports, so that each field is read.
#[tactic(auto, unfolding(crate::specs::Numbers::sum_of))]
fn sum(r: PusTmRecord) -> usize
    ensures { result ≡ sum_of r }
{
    r.ccsds_version() as usize
        + r.packet_id_raw() as usize
        + r.psc_raw() as usize
        + r.data_len() as usize
        + r.service_type_id() as usize
        + r.message_subtype_id() as usize
        + r.sc_time_ref_status() as usize
        + r.msg_counter() as usize
        + r.dest_id() as usize
        + r.crc16().unwrap_or(0) as usize
}

// The sum of what it reports, 0 where it is refused.
#[unsafe(no_mangle)]
pub extern "C" fn port_tm_read(data: &[u8]) -> usize
    ensures { result ≡ read_number (checked_in 7 «data».now) }
{
    PusTmRecord::new(TIME_LEN, data).map_or(0, sum)
}
