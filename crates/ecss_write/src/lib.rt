// Packets of every kind written, over the octet at which their data starts: totals, lengths, the room for them, and the checksum
// behind them.
#![tactic(auto, unfolding(space_packet::specs::Answer::and_then, space_packet::specs::Answer::set_if, space_packet::specs::Answer::refuse_if))]

ghost use Rattle.std.specs.Prelude.{◌≡◌, true, ◌++◌, ◌+◌, ◌-◌, ◌^◌, ◌≤◌, length, take, drop};
ghost use Rattle.space_packet.specs.Answer.{◌then◌, in_buffer, answer_of};
ghost use Rattle.space_packet.specs.Wrote.{Wrote};
ghost use Rattle.ecss.specs.Frame.{sealed, max_total};
ghost use Rattle.ecss_write.specs.Write.{machine_total, limited, length_field, write_in};

use ecss::frame;
use space_packet::{ByteConversionError, PusError};

pub mod packet;

// The total of some octets of data; 6 where no machine size holds it.
pub fn total_of(start: usize, data_len: usize, has_checksum: bool) -> Result<usize, PusError>
    ensures { answer_of result ≡ machine_total start has_checksum data_len }
{
    let trailer = frame::trailer_len(has_checksum);
    let most = 18446744073709551615 - trailer;
    if most < start {
        return Err(PusError::PacketTooLong(data_len));
    }
    if most - start < data_len {
        return Err(PusError::PacketTooLong(data_len));
    }
    Ok(start + data_len + trailer)
}

// The largest total that a length field states.
pub const MAX_TOTAL: usize = 65542;

// Holds it to that of the definitions, and to the total of a length field of sixteen ones, and is there for its contract.
fn max_total() -> usize
    ensures { (result ≡ max_total) × (result ≡ 2 ^ 16 - 1 + 7) }
{
    MAX_TOTAL
}

// 6 where the total of some octets of data is above that.
pub(crate) fn within_limit(data_len: usize, total: usize) -> Result<usize, PusError>
    ensures { answer_of result ≡ limited data_len total }
{
    if MAX_TOTAL < total {
        return Err(PusError::PacketTooLong(data_len));
    }
    Ok(total)
}

// The length field of a total; no field states fewer octets than 7.
pub(crate) fn field_of(total: usize) -> u16
    requires { total ≤ max_total }
    ensures { result ≡ total - 7 }
{
    if total < 7 {
        return 0;
    }
    (total - 7) as u16
}

// The length field of some octets of data; 6 where the total is above 65,542.
#[tactic(auto, unfolding(space_packet::specs::Answer::and_then, crate::specs::Write::length_field))]
pub fn data_len_field(start: usize, data_len: usize, has_checksum: bool) -> Result<u16, PusError>
    ensures { answer_of result ≡ length_field start has_checksum data_len }
{
    let total = within_limit(data_len, total_of(start, data_len, has_checksum)?)?;
    Ok(field_of(total))
}

// 1 where a buffer of `found` octets has no room for `expected`.
fn in_buffer(found: usize, expected: usize) -> Result<usize, PusError>
    ensures { answer_of result ≡ in_buffer found expected }
{
    if found < expected {
        return Err(PusError::ByteConversion(ByteConversionError::ToSliceTooSmall {
            found,
            expected,
        }));
    }
    Ok(expected)
}

// 6, then 1: whether some octets of data have room in a buffer of `found`; the answer is the total.
#[tactic(auto, unfolding(space_packet::specs::Answer::and_then, crate::specs::Write::write_in))]
pub fn room_for(
    start: usize,
    data_len: usize,
    has_checksum: bool,
    found: usize,
) -> Result<usize, PusError>
    ensures { answer_of result ≡ write_in start has_checksum data_len found }
{
    in_buffer(found, total_of(start, data_len, has_checksum)?)
}

// Fills a lent part with `data` from its start; 1 where there is more data than room.
pub fn fill(part: &mut [u8], data: &[u8]) -> Result<usize, PusError>
    ensures { Wrote (in_buffer (length part.old) (length «data».now)) «data».now part.old result part.new }
{
    let n = in_buffer(part.len(), data.len())?;
    for (place, octet) in data.iter().enumerate() {
        part[place] = *octet;
    }
    Ok(n)
}

// Writes the checksum over the first `end` octets behind them.
fn put_checksum(buf: &mut [u8], end: usize)
    requires { end + 2 ≤ length buf.old }
    ensures { buf.new ≡ sealed (take end buf.old) ++ drop (end + 2) buf.old }
{
    let w = crc::crc_ccitt_false_no_table(frame::front(buf, end));
    buf[end] = (w / 256) as u8;
    buf[end + 1] = (w % 256) as u8;
}

// Writes the checksum over the headers and `data_len` octets of data behind them.
pub fn seal(start: usize, data_len: usize, buf: &mut [u8]) -> Result<usize, PusError>
    ensures { Wrote (write_in start true data_len (length buf.old)) (sealed (take (start + data_len) buf.old)) buf.old result buf.new }
{
    let total = room_for(start, data_len, true, buf.len())?;
    put_checksum(buf, total - 2);
    Ok(total)
}
