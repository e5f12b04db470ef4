// What the benchmark links: a command made and written, for a caller in C. In a crate of its own, as in a program that has this one use for it.
#![tactic(auto)]

ghost use Rattle.space_packet.specs.Answer.{answer_of};
ghost use Rattle.std.specs.Prelude.{◌≡◌, length};
ghost use Rattle.space_packet.specs.Header.{left_by};
ghost use Rattle.bench_write.specs.Numbers.{made_of, written_of, octets_of, size_number};

use ecss::{CreatorConfig, MessageTypeId};
use space_packet::{PacketId, PacketSequenceControl, PusError, SpHeader};
use tc_write::PusTcCreator;

// A command of two raw words and a message type.
fn made(id: u16, psc: u16, service: u8, subtype: u8, data: &[u8]) -> Result<PusTcCreator, PusError>
    ensures { answer_of result ≡ made_of id psc service subtype (length «data».now) }
{
    let header = SpHeader {
        version: 0,
        packet_id: PacketId::from(id),
        psc: PacketSequenceControl::from(psc),
        data_len: 0,
    };
    PusTcCreator::new_simple(
        header,
        MessageTypeId::new(service, subtype),
        data,
        CreatorConfig::default(),
    )
}

// It is written: how many octets, 0 where it is refused.
#[tactic(auto, unfolding(space_packet::specs::Answer::and_then))]
#[unsafe(no_mangle)]
pub extern "C" fn port_write(
    id: u16,
    psc: u16,
    service: u8,
    subtype: u8,
    data: &[u8],
    buf: &mut [u8],
) -> usize
    ensures { (result ≡ size_number (written_of (made_of id psc service subtype (length «data».now)) (length «data».now) (length buf.old)))
        × (buf.new ≡ left_by (written_of (made_of id psc service subtype (length «data».now)) (length «data».now) (length buf.old)) (octets_of (made_of id psc service subtype (length «data».now)) «data».now) buf.old) }
{
    let Ok(creator) = made(id, psc, service, subtype, data) else {
        return 0;
    };
    creator.write_to_slice(data, buf).unwrap_or(0)
}
