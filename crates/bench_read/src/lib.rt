// What the benchmark links: the checked read, for a caller in C. In a crate of its own, as in a program that has this one use for it.
#![tactic(auto)]

ghost use Rattle.std.specs.Prelude.{◌≡◌};
ghost use Rattle.tc_read.specs.Read.{checked_read};
ghost use Rattle.bench_read.specs.Numbers.{sum_of, read_number};

use tc_read::PusTcRecord;

// The sum of what a record reports, so that each field is read.
#[tactic(auto, unfolding(crate::specs::Numbers::sum_of))]
fn sum(r: PusTcRecord) -> usize
    ensures { result ≡ sum_of r }
{
    r.sp_header.version as usize
        + r.sp_header.packet_id_raw() as usize
        + r.sp_header.psc_raw() as usize
        + r.sp_header.data_len as usize
        + r.sec_header.service_type_id() as usize
        + r.sec_header.message_subtype_id() as usize
        + r.sec_header.ack_flags.raw_value() as usize
        + r.sec_header.source_id as usize
        + r.crc16.unwrap_or(0) as usize
}

// The sum of what it reports, 0 where it is refused.
#[unsafe(no_mangle)]
pub extern "C" fn port_read(data: &[u8]) -> usize
    ensures { result ≡ read_number (checked_read «data».now) }
{
    PusTcRecord::new(data).map_or(0, sum)
}
