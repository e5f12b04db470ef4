// The secondary header of a telemetry packet after ECSS-E-ST-70-41C. Its time field is opaque and travels beside the record; its
// length in octets, which the mission fixes, is handed to each call that needs it.
#![tactic(auto, unfolding(space_packet::specs::Answer::and_then, space_packet::specs::Answer::set_if, space_packet::specs::Answer::refuse_if))]

ghost use Rattle.std.specs.Prelude.{◌≡◌, [], ◌++◌, ◌+◌, ◌≤◌, length, take, drop};
ghost use Rattle.space_packet.specs.Answer.{refusal, gives, refuses, set_if, answer_of, outcome};
ghost use Rattle.space_packet.specs.Part.{beyond};
ghost use Rattle.space_packet.specs.Wrote.{Wrote};
ghost use Rattle.ecss.specs.Kind.{start_of, secondary_of, secondary_at};
ghost use Rattle.ecss.specs.Version.{version_is};
ghost use Rattle.ecss.specs.declared.PusVersion.TheVariants.{PusC};
ghost use Rattle.tm_header.specs.Header.{time_limit, time_check, timed, field_octets, tm_octets, sec_from, tm, status_check, sec_checks, sec_write, sec_read, with_status};

use ecss::{MessageTypeId, PusError, PusVersion, frame};
use space_packet::{ByteConversionError, CCSDS_HEADER_LEN};

// Length of the secondary header before its time.
pub const PUC_TM_MIN_SEC_HEADER_LEN: usize = 7;
// The longest time field, in octets.
pub const MAX_TIME_LEN: usize = 16;
// The longest secondary header.
pub const MAX_SEC_HEADER_LEN: usize = 23;

// These hold the three to the size of the header and to the time lengths that are taken, and are there for their contracts.
fn min_sec_header_len() -> usize
    ensures { result ≡ (tm 0).size }
{
    PUC_TM_MIN_SEC_HEADER_LEN
}

#[tactic(auto, unfolding(space_packet::specs::Answer::refuse_if, crate::specs::Header::time_limit))]
fn max_time_len() -> usize
    ensures { (time_limit result ≡ gives tt) × (time_limit (result + 1) ≡ refuses (refusal 14 [])) }
{
    MAX_TIME_LEN
}

fn max_sec_header_len() -> usize
    ensures { result ≡ (tm 16).size }
{
    MAX_SEC_HEADER_LEN
}

// ---- the time field

// 14 for a time length above 16.
#[tactic(auto, unfolding(space_packet::specs::Answer::refuse_if, crate::specs::Header::time_limit))]
pub fn check_time_len(time_len: u8) -> Result<(), PusError>
    ensures { answer_of result ≡ time_limit time_len }
{
    if MAX_TIME_LEN < time_len as usize {
        return Err(PusError::TimeLength);
    }
    Ok(())
}

// What a write asks of a time field of `found` octets; 14, for another length than the mission's too.
#[tactic(auto, unfolding(space_packet::specs::Answer::and_then, space_packet::specs::Answer::refuse_if, crate::specs::Header::time_check))]
pub fn check_time(time_len: u8, found: usize) -> Result<(), PusError>
    ensures { answer_of result ≡ time_check time_len found }
{
    check_time_len(time_len)?;
    if found != time_len as usize {
        return Err(PusError::TimeLength);
    }
    Ok(())
}

// Length of the secondary header.
pub fn sec_header_len(time_len: u8) -> usize
    ensures { result ≡ (tm time_len).size }
{
    PUC_TM_MIN_SEC_HEADER_LEN + time_len as usize
}

// Least length of a telemetry packet, with no data and no checksum: the octet at which the data starts.
pub fn min_len_without_source_data(time_len: u8) -> usize
    ensures { result ≡ start_of (tm time_len) }
{
    CCSDS_HEADER_LEN + sec_header_len(time_len)
}

// The octets of the secondary header in a packet; fewer where the packet is shorter.
pub fn sec_header_part(time_len: u8, packet: &[u8]) -> &[u8]
    ensures result_value { result.now ≡ secondary_of (tm time_len).size packet.now }
    ensures ref_ptr_value { result.ref_ptr ≡ beyond (secondary_at packet.now) packet.entry.ref_ptr }
{
    frame::sec_header_part(packet, sec_header_len(time_len))
}

// What a setter and a write ask of a time reference status: 7 where it is over four bits.
pub fn check_status(sc_time_ref_status: u8) -> Result<(), PusError>
    ensures { answer_of result ≡ status_check sc_time_ref_status }
{
    if 15 < sc_time_ref_status {
        return Err(PusError::FieldRange {
            place: 4,
            value: sc_time_ref_status as u16,
        });
    }
    Ok(())
}

// ---- the secondary header

#[derive(Clone, Copy, PartialEq, Eq)]
pub struct PusTmSecondaryHeader {
    pub pus_version: PusVersion,
    // Four bits, whose meaning is the mission's.
    pub sc_time_ref_status: u8,
    pub message_type_id: MessageTypeId,
    pub msg_counter: u16,
    pub dest_id: u16,
}

impl PusTmSecondaryHeader {
    // Message counter 0, and destination 0.
    pub fn new_simple(message_type_id: MessageTypeId) -> PusTmSecondaryHeader
        ensures { result ≡ sec_from PusC 0 message_type_id 0 0 }
    {
        PusTmSecondaryHeader::new(message_type_id, 0, 0)
    }

    // Of PUS C, with time reference status 0.
    pub fn new(
        message_type_id: MessageTypeId,
        msg_counter: u16,
        dest_id: u16,
    ) -> PusTmSecondaryHeader
        ensures { result ≡ sec_from PusC 0 message_type_id msg_counter dest_id }
    {
        PusTmSecondaryHeader {
            pus_version: PusVersion::PusC,
            sc_time_ref_status: 0,
            message_type_id,
            msg_counter,
            dest_id,
        }
    }

    // 7 where it is over four bits; the header then stays as it was.
    pub fn set_sc_time_ref_status(&mut self, sc_time_ref_status: u8) -> Result<(), PusError>
        ensures { outcome result self.new ≡ set_if (status_check sc_time_ref_status) self.old (with_status self.old sc_time_ref_status) }
    {
        check_status(sc_time_ref_status)?;
        self.sc_time_ref_status = sc_time_ref_status;
        Ok(())
    }

    pub fn pus_version(self) -> PusVersion
        ensures { result ≡ self.pus_version }
    {
        self.pus_version
    }

    pub fn sc_time_ref_status(self) -> u8
        ensures { result ≡ self.sc_time_ref_status }
    {
        self.sc_time_ref_status
    }

    pub fn message_type_id(self) -> MessageTypeId
        ensures { result ≡ self.message_type_id }
    {
        self.message_type_id
    }

    pub fn service_type_id(self) -> u8
        ensures { result ≡ self.message_type_id.type_id }
    {
        self.message_type_id.type_id
    }

    pub fn message_subtype_id(self) -> u8
        ensures { result ≡ self.message_type_id.subtype_id }
    {
        self.message_type_id.subtype_id
    }

    pub fn msg_counter(self) -> u16
        ensures { result ≡ self.msg_counter }
    {
        self.msg_counter
    }

    pub fn dest_id(self) -> u16
        ensures { result ≡ self.dest_id }
    {
        self.dest_id
    }

    // What a setter and a write ask of its fields: 7 where the time reference status is over four bits.
    pub fn check_fields(self) -> Result<(), PusError>
        ensures { answer_of result ≡ status_check self.sc_time_ref_status }
    {
        check_status(self.sc_time_ref_status)
    }

    // What a write asks of the version: 3 for another than C.
    pub fn check_version(self) -> Result<(), PusError>
        ensures { answer_of result ≡ version_is PusC self.pus_version }
    {
        self.pus_version.check(PusVersion::PusC)
    }

    // The header that octets are, of which there must be enough for the time too; 14, 2. The version is always C.
    #[tactic(auto, unfolding(space_packet::specs::Answer::and_then, space_packet::specs::Answer::refuse_if, crate::specs::Header::sec_read, crate::specs::Header::fields_of))]
    pub fn from_be_bytes(time_len: u8, s: &[u8]) -> Result<PusTmSecondaryHeader, PusError>
        ensures { answer_of result ≡ sec_read time_len s.now }
    {
        check_time_len(time_len)?;
        let expected = sec_header_len(time_len);
        if s.len() < expected {
            return Err(PusError::ByteConversion(ByteConversionError::FromSliceTooSmall {
                found: s.len(),
                expected,
            }));
        }
        Ok(PusTmSecondaryHeader {
            pus_version: PusVersion::PusC,
            sc_time_ref_status: s[0] % 16,
            message_type_id: MessageTypeId::new(s[1], s[2]),
            msg_counter: space_packet::word_at(s, 3),
            dest_id: space_packet::word_at(s, 5),
        })
    }

    // What a write with that time into `room` octets asks; 14, 7, 1, 3.
    #[tactic(auto, unfolding(space_packet::specs::Answer::and_then, space_packet::specs::Answer::refuse_if, crate::specs::Header::sec_checks))]
    fn check(self, time_len: u8, time: &[u8], room: usize) -> Result<(), PusError>
        ensures { answer_of result ≡ sec_checks time_len (timed self time.now) room }
    {
        check_time(time_len, time.len())?;
        self.check_fields()?;
        let expected = sec_header_len(time_len);
        if room < expected {
            return Err(PusError::ByteConversion(ByteConversionError::ToSliceTooSmall {
                found: room,
                expected,
            }));
        }
        self.check_version()
    }

    // Writes the seven octets and the time behind them; 14, 7, 1, 3.
    #[tactic(auto, unfolding(space_packet::specs::Answer::and_then, crate::specs::Header::sec_write, crate::specs::Header::tm_octets))]
    pub fn write_to_slice(
        self,
        time_len: u8,
        time: &[u8],
        buf: &mut [u8],
    ) -> Result<usize, PusError>
        ensures { Wrote (sec_write time_len (timed self time.now) (length buf.old)) (tm_octets (timed self time.now)) buf.old result buf.new }
    {
        self.check(time_len, time, buf.len())?;
        self.put(buf);
        put_time(time, buf);
        Ok(sec_header_len(time_len))
    }

    // Writes the seven octets before the time.
    fn put(self, buf: &mut [u8])
        requires { (self.sc_time_ref_status ≤ 15) × (7 ≤ length buf.old) }
        ensures { buf.new ≡ field_octets self ++ drop 7 buf.old }
    {
        buf[0] = self.pus_version.raw_value() * 16 + self.sc_time_ref_status;
        buf[1] = self.message_type_id.type_id;
        buf[2] = self.message_type_id.subtype_id;
        buf[3] = (self.msg_counter / 256) as u8;
        buf[4] = (self.msg_counter % 256) as u8;
        buf[5] = (self.dest_id / 256) as u8;
        buf[6] = (self.dest_id % 256) as u8;
    }
}

// Writes the time behind seven octets.
fn put_time(time: &[u8], buf: &mut [u8])
    requires { 7 + length time.now ≤ length buf.old }
    ensures { buf.new ≡ take 7 buf.old ++ time.now ++ drop (7 + length time.now) buf.old }
{
    let _ = ecss_write::fill(&mut buf[PUC_TM_MIN_SEC_HEADER_LEN..], time);
}
