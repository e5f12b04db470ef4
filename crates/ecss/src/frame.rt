// The frame of a packet, over the octet at which its data starts: its length checks, its checksum, and the parts handed out.
ghost use Rattle.space_packet.specs.Answer.{answer_of};
ghost use Rattle.std.specs.Prelude.{◌≡◌, take, drop};
ghost use Rattle.space_packet.specs.Part.{beyond, reached};
ghost use Rattle.ecss.specs.Frame.{trailer, frame_of, checked_of, frame_after, checked_after, crc_taken, raw_part, data_part, data_at, same_octets};
ghost use Rattle.ecss.specs.Kind.{secondary_of, secondary_at};

use space_packet::{ByteConversionError, CCSDS_HEADER_LEN, PusError};

fn too_small(found: usize, expected: usize) -> PusError
    ensures { result ≡ PusError.ByteConversion (ByteConversionError.FromSliceTooSmall found expected) }
{
    PusError::ByteConversion(ByteConversionError::FromSliceTooSmall { found, expected })
}

// The reader's length checks in their order; the answer is the stated total.
pub fn frame_of(s: &[u8], start: usize, has_checksum: bool) -> Result<usize, PusError>
    ensures { answer_of result ≡ frame_of start s.now has_checksum }
{
    let n = s.len();
    if n < start {
        return Err(too_small(n, start));
    }
    let total = space_packet::word_at(s, 4) as usize + 7;
    if n < total {
        return Err(too_small(n, total));
    }
    if total < start {
        return Err(too_small(total, start));
    }
    if has_checksum {
        if total < start + 2 {
            return Err(too_small(total - 2, start));
        }
    }
    Ok(total)
}

// The first n octets, or all where there are fewer.
pub fn front(s: &[u8], n: usize) -> &[u8]
    ensures result_value { result.now ≡ take n s.now }
    ensures ref_ptr_value { result.ref_ptr ≡ s.entry.ref_ptr }
{
    if s.len() < n {
        return s;
    }
    &s[..n]
}

// The n octets from `at` on, or as many of them as there are.
pub fn part_at(s: &[u8], at: usize, n: usize) -> &[u8]
    ensures result_value { result.now ≡ take n (drop at s.now) }
    ensures ref_ptr_value { result.ref_ptr ≡ beyond (reached at s.now) s.entry.ref_ptr }
{
    if s.len() < at {
        return &s[..0];
    }
    front(&s[at..], n)
}

// The octets of a secondary header of `size` octets in a packet; fewer where the packet is shorter.
pub fn sec_header_part(packet: &[u8], size: usize) -> &[u8]
    ensures result_value { result.now ≡ secondary_of size packet.now }
    ensures ref_ptr_value { result.ref_ptr ≡ beyond (secondary_at packet.now) packet.entry.ref_ptr }
{
    part_at(packet, CCSDS_HEADER_LEN, size)
}

// All reader checks with checksum.
#[tactic(auto, unfolding(space_packet::specs::Answer::and_then, crate::specs::Frame::checked_of))]
pub fn checked(s: &[u8], start: usize) -> Result<usize, PusError>
    ensures { answer_of result ≡ checked_of start s.now }
{
    let total = frame_of(s, start, true)?;
    let stored = space_packet::word_at(s, total - 2);
    crate::verify_crc16_ccitt_false_from_raw_to_pus_error(front(s, total), stored)?;
    Ok(total)
}

// The reader's length checks behind a check that comes before all others.
#[tactic(auto, unfolding(space_packet::specs::Answer::and_then, crate::specs::Frame::frame_after))]
pub fn frame_after(
    first: Result<(), PusError>,
    s: &[u8],
    start: usize,
    has_checksum: bool,
) -> Result<usize, PusError>
    ensures { answer_of result ≡ frame_after (answer_of first) start s.now has_checksum }
{
    first?;
    frame_of(s, start, has_checksum)
}

// All reader checks with checksum behind it.
#[tactic(auto, unfolding(space_packet::specs::Answer::and_then, crate::specs::Frame::checked_after))]
pub fn checked_after(first: Result<(), PusError>, s: &[u8], start: usize) -> Result<usize, PusError>
    ensures { answer_of result ≡ checked_after (answer_of first) start s.now }
{
    first?;
    checked(s, start)
}

// The checksum that a packet of `total` octets stores, where it is taken.
pub fn crc_taken(s: &[u8], total: usize, has_checksum: bool) -> Option<u16>
    ensures { result ≡ crc_taken has_checksum s.now total }
{
    if !has_checksum {
        return None;
    }
    if total < 2 {
        return Some(space_packet::word_at(s, 0));
    }
    Some(space_packet::word_at(s, total - 2))
}

// The packet, as a part of the octets; the empty part where it is refused.
pub fn raw_part(first: Result<(), PusError>, s: &[u8], start: usize, has_checksum: bool) -> &[u8]
    ensures result_value { result.now ≡ raw_part (frame_after (answer_of first) start s.now has_checksum) s.now }
    ensures ref_ptr_value { result.ref_ptr ≡ s.entry.ref_ptr }
{
    match frame_after(first, s, start, has_checksum) {
        Err(_) => &s[..0],
        Ok(total) => front(s, total),
    }
}

// How many octets the checksum has.
pub fn trailer_len(has_checksum: bool) -> usize
    ensures { result ≡ trailer has_checksum }
{
    if has_checksum { 2 } else { 0 }
}

// The packet's data, up to the checksum; the empty part where it is refused.
pub fn data_part(first: Result<(), PusError>, s: &[u8], start: usize, has_checksum: bool) -> &[u8]
    ensures result_value { result.now ≡ data_part start has_checksum (frame_after (answer_of first) start s.now has_checksum) s.now }
    ensures ref_ptr_value { result.ref_ptr ≡ beyond (data_at start (frame_after (answer_of first) start s.now has_checksum)) s.entry.ref_ptr }
{
    match frame_after(first, s, start, has_checksum) {
        Err(_) => &s[..0],
        Ok(total) => {
            let end = total - trailer_len(has_checksum);
            &s[start..end]
        }
    }
}

// Whether two slices hold the same octets.
pub fn same_octets(a: &[u8], b: &[u8]) -> bool
    ensures { result ≡ same_octets a.now b.now }
{
    a == b
}
