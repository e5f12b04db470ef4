// What the benchmark links: telemetry made and written, for a caller in C. In a crate of its own, as in a program that has this one use for it.
#![tactic(auto, unfolding(space_packet::specs::Answer::and_then))]

ghost use Rattle.std.specs.Prelude.{◌≡◌, length};
ghost use Rattle.space_packet.specs.Answer.{answer_of};
ghost use Rattle.space_packet.specs.Header.{left_by};
ghost use Rattle.bench_tm_write.specs.Numbers.{made_of, written_of, octets_of, size_number};

use ecss::{CreatorConfig, MessageTypeId};
use space_packet::{PacketId, PacketSequenceControl, PusError, SpHeader};
use tm_write::PusTmCreator;

// The octets of a time field.
const TIME_LEN: u8 = 7;

// Telemetry of two raw words and a message type.
fn made(
    id: u16,
    psc: u16,
    service: u8,
    subtype: u8,
    time: &[u8],
    data: &[u8],
) -> Result<PusTmCreator, PusError>
    ensures { answer_of result ≡ made_of id psc service subtype time.now (length «data».now) }
{
    PusTmCreator::new_simple(
        TIME_LEN,
        SpHeader::new(PacketId::from(id), PacketSequenceControl::from(psc), 0),
        MessageTypeId::new(service, subtype),
        time,
        data,
        CreatorConfig::default(),
    )
}

// It is written: how many octets, 0 where it is refused.
#[unsafe(no_mangle)]
pub extern "C" fn port_tm_write(
    id: u16,
    psc: u16,
    service: u8,
    subtype: u8,
    time: &[u8],
    data: &[u8],
    buf: &mut [u8],
) -> usize
    ensures { (result ≡ size_number (written_of (made_of id psc service subtype time.now (length «data».now)) time.now (length «data».now) (length buf.old)))
        × (buf.new ≡ left_by (written_of (made_of id psc service subtype time.now (length «data».now)) time.now (length «data».now) (length buf.old)) (octets_of (made_of id psc service subtype time.now (length «data».now)) time.now «data».now) buf.old) }
{
    let Ok(report) = made(id, psc, service, subtype, time, data) else {
        return 0;
    };
    report.write_to_slice(time, data, buf).unwrap_or(0)
}
