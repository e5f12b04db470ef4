// Telemetry read, after ECSS-E-ST-70-41C: the record of what octets hold, and the parts of them that are handed out without a copy.
// Each call takes the length of the time field that the mission fixes.
#![tactic(auto)]

ghost use Rattle.std.specs.Prelude.{◌≡◌, false, Ok};
ghost use Rattle.space_packet.specs.Answer.{answer_of};
ghost use Rattle.space_packet.specs.Header.{packet_len};
ghost use Rattle.space_packet.specs.Part.{beyond};
ghost use Rattle.ecss.specs.Frame.{Framed, has_crc};
ghost use Rattle.tm_header.specs.Header.{time_limit};
ghost use Rattle.tm_read.specs.Read.{start_in, record_in, read_in, checked_in, timestamp_in, timestamp_at, source_data_in, source_data_at, raw_data_in};

use ecss::{MessageTypeId, PusError, PusPacket, PusVersion, frame};
use space_packet::{CcsdsPacket, SpHeader};
use tm_header::{PUC_TM_MIN_SEC_HEADER_LEN, PusTmSecondaryHeader};

// What a reader reports.
#[derive(Clone, Copy, PartialEq, Eq)]
pub struct PusTmRecord {
    pub sp_header: SpHeader,
    pub sec_header: PusTmSecondaryHeader,
    // The source data: from the octet `start` up to `end`.
    pub start: usize,
    pub end: usize,
    // The octets of the whole packet.
    pub total: usize,
    pub crc16: Option<u16>,
}

impl PusTmRecord {
    // The checksum is taken and compared: reads the packet that octets begin with; 14, 2, 4.
    #[tactic(auto, using(crate::proofs::Records::framed), unfolding(space_packet::specs::Answer::and_then, crate::specs::Read::checked_in))]
    pub fn new(time_len: u8, slice: &[u8]) -> Result<PusTmRecord, PusError>
        ensures { answer_of result ≡ checked_in time_len slice.now }
    {
        let start = tm_header::min_len_without_source_data(time_len);
        let total = frame::checked_after(tm_header::check_time_len(time_len), slice, start)?;
        PusTmRecord::of(time_len, slice, total, true)
    }

    // No checksum is expected; 14, 2.
    pub fn new_no_checksum(time_len: u8, slice: &[u8]) -> Result<PusTmRecord, PusError>
        ensures { answer_of result ≡ read_in time_len slice.now false }
    {
        PusTmRecord::new_no_checksum_verification(time_len, slice, false)
    }

    // A checksum is taken where there is one, and not compared; 14, 2.
    #[tactic(auto, using(crate::proofs::Records::framed), unfolding(space_packet::specs::Answer::and_then, crate::specs::Read::read_in))]
    pub fn new_no_checksum_verification(
        time_len: u8,
        slice: &[u8],
        has_checksum: bool,
    ) -> Result<PusTmRecord, PusError>
        ensures { answer_of result ≡ read_in time_len slice.now has_checksum }
    {
        let start = tm_header::min_len_without_source_data(time_len);
        let total = frame::frame_after(
            tm_header::check_time_len(time_len),
            slice,
            start,
            has_checksum,
        )?;
        PusTmRecord::of(time_len, slice, total, has_checksum)
    }

    // The record of a packet of `total` octets.
    fn of(
        time_len: u8,
        slice: &[u8],
        total: usize,
        has_checksum: bool,
    ) -> Result<PusTmRecord, PusError>
        requires { Framed (time_limit time_len) (start_in time_len) has_checksum slice.now total }
        ensures { result ≡ Ok (record_in time_len slice.now has_checksum total) }
    {
        Ok(PusTmRecord {
            sp_header: SpHeader::from_be_bytes(slice)?,
            sec_header: PusTmSecondaryHeader::from_be_bytes(
                time_len,
                tm_header::sec_header_part(time_len, slice),
            )?,
            start: tm_header::min_len_without_source_data(time_len),
            end: total - frame::trailer_len(has_checksum),
            total,
            crc16: frame::crc_taken(slice, total, has_checksum),
        })
    }

    // ---- reading

    // The total that the length field states.
    pub fn len_packed(self) -> usize
        ensures { result ≡ packet_len self.sp_header }
    {
        self.sp_header.packet_len()
    }

    pub fn sec_header(self) -> PusTmSecondaryHeader
        ensures { result ≡ self.sec_header }
    {
        self.sec_header
    }

    // The checksum, where it was taken.
    pub fn crc16(self) -> Option<u16>
        ensures { result ≡ self.crc16 }
    {
        self.crc16
    }

    // The same, as the trait PusPacket of the Rust names it.
    pub fn checksum(self) -> Option<u16>
        ensures { result ≡ self.crc16 }
    {
        self.crc16
    }

    pub fn has_checksum(self) -> bool
        ensures { result ≡ has_crc self.crc16 }
    {
        self.crc16.is_some()
    }

    pub fn msg_counter(self) -> u16
        ensures { result ≡ self.sec_header.msg_counter }
    {
        self.sec_header.msg_counter
    }

    pub fn dest_id(self) -> u16
        ensures { result ≡ self.sec_header.dest_id }
    {
        self.sec_header.dest_id
    }

    pub fn sc_time_ref_status(self) -> u8
        ensures { result ≡ self.sec_header.sc_time_ref_status }
    {
        self.sec_header.sc_time_ref_status
    }
}

impl CcsdsPacket for PusTmRecord {
    ghost primary = { λ r. r.sp_header };

    fn sp_header(self) -> SpHeader {
        self.sp_header
    }
}

impl PusPacket for PusTmRecord {
    ghost message_type = { λ r. r.sec_header.message_type_id };

    ghost version = { λ r. r.sec_header.pus_version };

    fn message_type_id(self) -> MessageTypeId {
        self.sec_header.message_type_id
    }

    fn pus_version(self) -> PusVersion {
        self.sec_header.pus_version
    }
}

// ---- parts: each call takes the octets and the choice of checksum, and reads anew

// The time field; the empty part where the read is refused.
pub fn timestamp(time_len: u8, slice: &[u8], has_checksum: bool) -> &[u8]
    ensures result_value { result.now ≡ timestamp_in time_len slice.now has_checksum }
    ensures ref_ptr_value { result.ref_ptr ≡ beyond (timestamp_at time_len slice.now has_checksum) slice.entry.ref_ptr }
{
    let start = tm_header::min_len_without_source_data(time_len);
    match frame::frame_after(
        tm_header::check_time_len(time_len),
        slice,
        start,
        has_checksum,
    ) {
        Err(_) => &slice[..0],
        Ok(_) => &tm_header::sec_header_part(time_len, slice)[PUC_TM_MIN_SEC_HEADER_LEN..],
    }
}

// The source data; the empty part where the read is refused.
pub fn source_data(time_len: u8, slice: &[u8], has_checksum: bool) -> &[u8]
    ensures result_value { result.now ≡ source_data_in time_len slice.now has_checksum }
    ensures ref_ptr_value { result.ref_ptr ≡ beyond (source_data_at time_len slice.now has_checksum) slice.entry.ref_ptr }
{
    frame::data_part(
        tm_header::check_time_len(time_len),
        slice,
        tm_header::min_len_without_source_data(time_len),
        has_checksum,
    )
}

// The whole packet; the empty part where the read is refused.
pub fn raw_data(time_len: u8, slice: &[u8], has_checksum: bool) -> &[u8]
    ensures result_value { result.now ≡ raw_data_in time_len slice.now has_checksum }
    ensures ref_ptr_value { result.ref_ptr ≡ slice.entry.ref_ptr }
{
    frame::raw_part(
        tm_header::check_time_len(time_len),
        slice,
        tm_header::min_len_without_source_data(time_len),
        has_checksum,
    )
}
