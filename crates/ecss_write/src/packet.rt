// The write path of a packet of any kind: its checks, its length, and its octets. The secondary header comes encoded, as
// octets, with what the kind asks of it.
ghost use Rattle.std.specs.Prelude.{◌≡◌, true, ◌++◌, ◌+◌, ◌-◌, ◌≤◌, length, take, drop, Some};
ghost use Rattle.space_packet.specs.Answer.{gives, ◌then◌, answer_of, outcome};
ghost use Rattle.space_packet.specs.Header.{header_check, header_octets};
ghost use Rattle.space_packet.specs.Wrote.{Wrote};
ghost use Rattle.ecss.specs.Frame.{closed};
ghost use Rattle.ecss_write.specs.Write.{total_for, write_in, asked_by, write_with, bare_with, put_with, put_octets, reserve_with, own_with, as_type, with_length, field_with, made_with, afresh_with, headed_at};

use ecss::CreatorConfig;
use space_packet::{PacketType, PusError, SpHeader};

// What a kind of packet asks of its secondary header: before all others, of its fields after the primary header's, and
// after the room.
#[derive(Clone, Copy, PartialEq, Eq)]
pub struct Asks {
    pub first: Result<(), PusError>,
    pub fields: Result<(), PusError>,
    pub version: Result<(), PusError>,
}

// ---- the checks

// What is asked before the room.
pub fn before(asks: Asks, h: SpHeader) -> Result<(), PusError>
    ensures { answer_of result ≡ asked_by asks h }
{
    asks.first?;
    h.check()?;
    asks.fields
}

// What is asked up to the room, for some octets of data in a buffer of `found`; the answer is the total.
fn room_asked(
    asks: Asks,
    h: SpHeader,
    start: usize,
    data_len: usize,
    has_checksum: bool,
    found: usize,
) -> Result<usize, PusError>
    ensures { answer_of result ≡ (asked_by asks h then λ _. write_in start has_checksum data_len found) }
{
    before(asks, h)?;
    crate::room_for(start, data_len, has_checksum, found)
}

// What is asked last, of a total that passed all before.
fn asked_last(asks: Asks, total: usize) -> Result<usize, PusError>
    ensures { answer_of result ≡ (answer_of asks.version then λ _. gives total) }
{
    asks.version.and(Ok(total))
}

// What a write refuses, in its order; the answer is the total.
#[tactic(auto, unfolding(space_packet::specs::Answer::and_then, crate::specs::Write::write_with))]
fn check_write(
    asks: Asks,
    h: SpHeader,
    start: usize,
    data_len: usize,
    has_checksum: bool,
    found: usize,
) -> Result<usize, PusError>
    ensures { answer_of result ≡ write_with (asked_by asks h) (answer_of asks.version) start has_checksum data_len found }
{
    let total = room_asked(asks, h, start, data_len, has_checksum, found)?;
    asked_last(asks, total)
}

// What reserving refuses, in its order; the answer is the total.
#[tactic(auto, unfolding(space_packet::specs::Answer::and_then, crate::specs::Write::reserve_with))]
fn check_reserve(
    asks: Asks,
    h: SpHeader,
    start: usize,
    data_len: usize,
    has_checksum: bool,
    found: usize,
) -> Result<usize, PusError>
    ensures { answer_of result ≡ reserve_with (asked_by asks h) (answer_of asks.version) start has_checksum data_len found }
{
    let total = room_asked(asks, h, start, data_len, has_checksum, found)?;
    crate::within_limit(data_len, total)?;
    asked_last(asks, total)
}

// ---- the header

// A header of the type, with a secondary header.
pub fn as_type(mut h: SpHeader, packet_type: PacketType) -> SpHeader
    ensures { result ≡ as_type packet_type h }
{
    h.set_packet_type(packet_type);
    h.set_sec_header_flag();
    h
}

// The length field of that many octets of data, or where it is not set the header's.
#[tactic(auto, unfolding(space_packet::specs::Answer::and_then, crate::specs::Write::field_with))]
fn length_for(
    asks: Asks,
    h: SpHeader,
    start: usize,
    data_len: usize,
    config: CreatorConfig,
) -> Result<u16, PusError>
    ensures { answer_of result ≡ field_with (asked_by asks h) start config.has_checksum data_len config.set_ccsds_len h.data_len }
{
    before(asks, h)?;
    if config.set_ccsds_len {
        return crate::data_len_field(start, data_len, config.has_checksum);
    }
    Ok(h.data_len)
}

fn with_length(mut h: SpHeader, data_len: u16) -> SpHeader
    ensures { result ≡ with_length h data_len }
{
    h.data_len = data_len;
    h
}

// The header that construction makes: of the type, with a secondary header, and with its length field set or left.
pub fn made(
    asks: Asks,
    h: SpHeader,
    packet_type: PacketType,
    start: usize,
    data_len: usize,
    config: CreatorConfig,
) -> Result<SpHeader, PusError>
    ensures { answer_of result ≡ made_with (asked_by asks (as_type packet_type h)) start config.has_checksum data_len config.set_ccsds_len (as_type packet_type h) }
{
    let header = as_type(h, packet_type);
    let n = length_for(asks, header, start, data_len, config)?;
    Ok(with_length(header, n))
}

// Sets the length field for that many octets of data; where it is refused the header stays as it was.
#[tactic(auto, unfolding(space_packet::specs::Answer::and_then, space_packet::specs::Answer::set_if, crate::specs::Write::afresh_with, crate::specs::Write::field_with))]
pub fn length_afresh(
    asks: Asks,
    h: &mut SpHeader,
    start: usize,
    data_len: usize,
    has_checksum: bool,
) -> Result<(), PusError>
    ensures { outcome result h.new ≡ afresh_with (asked_by asks h.old) start has_checksum data_len h.old }
{
    let config = CreatorConfig {
        set_ccsds_len: true,
        has_checksum,
    };
    h.data_len = length_for(asks, *h, start, data_len, config)?;
    Ok(())
}

// ---- octets

// Writes both headers.
fn put_head(h: SpHeader, sec: &[u8], buf: &mut [u8])
    requires { (header_check h ≡ gives tt) × (6 + length sec.now ≤ length buf.old) }
    ensures { buf.new ≡ header_octets h ++ sec.now ++ drop (6 + length sec.now) buf.old }
{
    let _ = h.write_to_slice(buf);
    let _ = crate::fill(&mut buf[6..], sec);
}

// Writes the data behind the headers.
fn put_data(start: usize, data: &[u8], buf: &mut [u8])
    requires { (start ≤ length buf.old) × (start + length «data».now ≤ length buf.old) }
    ensures { buf.new ≡ take start buf.old ++ «data».now ++ drop (start + length «data».now) buf.old }
{
    let _ = crate::fill(&mut buf[start..], data);
}

// The packet without its checksum, for which there still must be room.
fn write_bare(
    asks: Asks,
    h: SpHeader,
    sec: &[u8],
    data: &[u8],
    has_checksum: bool,
    buf: &mut [u8],
) -> Result<usize, PusError>
    ensures { Wrote (bare_with (asked_by asks h) (answer_of asks.version) (6 + length sec.now) has_checksum (length «data».now) (length buf.old)) (header_octets h ++ sec.now ++ «data».now) buf.old result buf.new }
{
    let start = 6 + sec.len();
    check_write(asks, h, start, data.len(), has_checksum, buf.len())?;
    put_head(h, sec, buf);
    put_data(start, data, buf);
    Ok(start + data.len())
}

// The packet, over the first octets of the buffer.
fn write(
    asks: Asks,
    h: SpHeader,
    sec: &[u8],
    data: &[u8],
    has_checksum: bool,
    buf: &mut [u8],
) -> Result<usize, PusError>
    ensures { Wrote (write_with (asked_by asks h) (answer_of asks.version) (6 + length sec.now) has_checksum (length «data».now) (length buf.old)) (closed has_checksum (header_octets h ++ sec.now ++ «data».now)) buf.old result buf.new }
{
    let end = write_bare(asks, h, sec, data, has_checksum, buf)?;
    if has_checksum {
        return crate::seal(6 + sec.len(), data.len(), buf);
    }
    Ok(end)
}

// Either write.
pub fn put(
    asks: Asks,
    h: SpHeader,
    sec: &[u8],
    data: &[u8],
    has_checksum: bool,
    bare: bool,
    buf: &mut [u8],
) -> Result<usize, PusError>
    ensures { Wrote (put_with bare (asked_by asks h) (answer_of asks.version) (6 + length sec.now) has_checksum (length «data».now) (length buf.old)) (put_octets bare has_checksum (header_octets h ++ sec.now ++ «data».now)) buf.old result buf.new }
{
    if bare {
        return write_bare(asks, h, sec, data, has_checksum, buf);
    }
    write(asks, h, sec, data, has_checksum, buf)
}

// The checksum over the headers and the data.
#[tactic(auto, unfolding(space_packet::specs::Answer::and_then, crate::specs::Write::own_with))]
pub fn own_checksum(asks: Asks, h: SpHeader, sec: &[u8], data: &[u8]) -> Result<u16, PusError>
    ensures { answer_of result ≡ own_with (asked_by asks h) (answer_of asks.version) (header_octets h ++ sec.now ++ «data».now) }
{
    before(asks, h)?;
    asks.version?;
    let mut head = [0u8; 6];
    let _ = h.write_to_slice(&mut head);
    let digest = crc::Digest::new()
        .update_no_table(&head)
        .update_no_table(sec)
        .update_no_table(data);
    Ok(digest.finalize())
}

// That checksum as one that is written.
pub fn checksum_of(own: Result<u16, PusError>) -> Result<Option<u16>, PusError>
    ensures { answer_of result ≡ (answer_of own then λ n. gives (Some n)) }
{
    Ok(Some(own?))
}

// The headers of a packet with that many octets of data, with its length; the answer is the total.
pub fn reserve(
    asks: Asks,
    h: SpHeader,
    sec: &[u8],
    data_len: usize,
    has_checksum: bool,
    buf: &mut [u8],
) -> Result<usize, PusError>
    ensures { (answer_of result ≡ reserve_with (asked_by asks h) (answer_of asks.version) (6 + length sec.now) has_checksum data_len (length buf.old))
        × (buf.new ≡ headed_at (6 + length sec.now) (reserve_with (asked_by asks h) (answer_of asks.version) (6 + length sec.now) has_checksum data_len (length buf.old)) (header_octets (with_length h (total_for (6 + length sec.now) has_checksum data_len - 7)) ++ sec.now) buf.old) }
{
    let total = check_reserve(asks, h, 6 + sec.len(), data_len, has_checksum, buf.len())?;
    put_head(with_length(h, crate::field_of(total)), sec, buf);
    Ok(total)
}
