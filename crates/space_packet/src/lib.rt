// The space packet primary header of CCSDS 133.0-B-2, and the refusals that every crate above answers with.
#![tactic(auto, unfolding(crate::specs::Answer::and_then, crate::specs::Answer::set_if, crate::specs::Answer::refuse_if))]

ghost use Rattle.std.specs.Prelude.{◌≡◌, ◌++◌, true, false, ◌-◌, ◌^◌, ◌≤◌, length, drop, get_or, eqb};
ghost use Rattle.space_packet.specs.Answer.{bytes_numbers, numbers_of, in_numbers, gives, ◌then◌, set_if, in_range, answer_of, outcome};
ghost use Rattle.space_packet.specs.Bits.{be16, word};
ghost use Rattle.space_packet.specs.Fields.{apid_check, count_check, is_idle, type_number, type_of, flags_number, flags_of, id_raw, id_of, psc_raw, psc_of, id_with_apid};
ghost use Rattle.space_packet.specs.Header.{header_octets, packet_len, InRange, header_check, header_read, header_write, header_of, id_from, psc_from, with_id, with_psc};
ghost use Rattle.space_packet.specs.Part.{beyond, reached};
ghost use Rattle.space_packet.specs.Wrote.{Wrote};
ghost use Rattle.space_packet.specs.declared.PacketType.TheVariants.{Tm, Tc};
ghost use Rattle.space_packet.specs.declared.SequenceFlags.TheVariants.{Unsegmented};
ghost use Rattle.space_packet.specs.declared.SpacePacketHeader.{SpacePacketHeader};

mod packet;

pub use packet::CcsdsPacket;

// Length of the primary header.
pub const CCSDS_HEADER_LEN: usize = 6;

// Holds that length to the octets that are written for a header, and is there for its contract.
fn header_len() -> usize
    ensures { (h : SpacePacketHeader) → result ≡ length (header_octets h) }
{
    CCSDS_HEADER_LEN
}

// ---- refusals

// Why octets could not be written or read: how many there were, and how many it takes.
#[derive(Clone, Copy, PartialEq, Eq)]
pub enum ByteConversionError {
    ToSliceTooSmall { found: usize, expected: usize },
    FromSliceTooSmall { found: usize, expected: usize },
}

// Every refusal of the library, in the order of its numbers. 5 is retired: it was the Rust's CrcCalculationMissing, and stays unused.
#[derive(Clone, Copy, PartialEq, Eq)]
pub enum PusError {
    // 1 and 2
    ByteConversion(ByteConversionError),
    // 3, with the nibble
    VersionNotSupported(u8),
    // 4, with the checksum that was stored, or handed in, and the one computed over all but the last two octets
    ChecksumFailure { stored: u16, computed: u16 },
    // 6, with the length of the application data
    PacketTooLong(usize),
    // 7: place 1 is the packet version number, 2 the APID, 3 the sequence count, 4 the acknowledgement flags, of telemetry the
    // time reference status, 5 the source ID
    FieldRange { place: u8, value: u16 },
    // 8
    Reservation,
    // 9, with the packet version number
    PacketVersion(u8),
    // 10
    PacketTypeTm,
    // 11
    NoSecondaryHeader,
    // 12
    IdleApid,
    // 13
    PacketTypeTc,
    // 14: a time length above 16, or a time field of another length than the mission's
    TimeLength,
    // 15: not a strictly accepted report of service 1 with the data of its subtype
    NotAReport,
    // 16
    RequestNotOpen,
    // 17
    RequestOpen,
    // 18: 32 commands are open
    TrackerFull,
    // 19: more than four spare octets
    SpareLength,
    // 20
    SpareNotZero,
    // 21: a list of parameters that is not strictly rising, or has a type that is not named
    ParameterList,
    // 22
    UnknownParameter,
    // 23
    OctetsLeftOver,
    // 24: a value of another kind or over its width, or more than 255 pairs
    ParameterValue,
    // 25: more than 1,024 octets, outside of the small-satellite profile
    ProfileLength,
    // 26: a segment
    ProfileSegmented,
    // 27: an APID of 64 or above
    ProfileApid,
    // 28: a service that the profile has not
    ProfileService,
    // 29: acceptance is not requested
    ProfileAcceptance,
    // 30: data with service 17
    ProfileData,
    // 31: a 65th APID
    TooManyApids,
    // 32: a source ID of another width than 0, 8 and 16 bits
    SourceWidth,
}

// A refusal in numbers: its own, how many values it has, and these, with 0 for what it has not.
#[derive(Clone, Copy, PartialEq, Eq)]
pub struct RefusalNumbers {
    pub number: u8,
    pub count: usize,
    pub first: u64,
    pub second: u64,
}

fn in_numbers(number: u8, count: usize, first: u64, second: u64) -> RefusalNumbers
    ensures { result ≡ record { number = number; count = count; first = first; second = second } }
{
    RefusalNumbers {
        number,
        count,
        first,
        second,
    }
}

impl ByteConversionError {
    fn numbers(self) -> RefusalNumbers
        ensures { result ≡ in_numbers (bytes_numbers self) }
    {
        match self {
            ByteConversionError::ToSliceTooSmall { found, expected } => {
                in_numbers(1, 2, found as u64, expected as u64)
            }
            ByteConversionError::FromSliceTooSmall { found, expected } => {
                in_numbers(2, 2, found as u64, expected as u64)
            }
        }
    }
}

impl PusError {
    // The number of the refusal, and its values.
    pub fn numbers(self) -> RefusalNumbers
        ensures { result ≡ in_numbers (numbers_of self) }
    {
        match self {
            PusError::ByteConversion(e) => e.numbers(),
            PusError::VersionNotSupported(nibble) => in_numbers(3, 1, nibble as u64, 0),
            PusError::ChecksumFailure { stored, computed } => {
                in_numbers(4, 2, stored as u64, computed as u64)
            }
            PusError::PacketTooLong(length) => in_numbers(6, 1, length as u64, 0),
            PusError::FieldRange { place, value } => in_numbers(7, 2, place as u64, value as u64),
            PusError::Reservation => in_numbers(8, 0, 0, 0),
            PusError::PacketVersion(version) => in_numbers(9, 1, version as u64, 0),
            PusError::PacketTypeTm => in_numbers(10, 0, 0, 0),
            PusError::NoSecondaryHeader => in_numbers(11, 0, 0, 0),
            PusError::IdleApid => in_numbers(12, 0, 0, 0),
            PusError::PacketTypeTc => in_numbers(13, 0, 0, 0),
            PusError::TimeLength => in_numbers(14, 0, 0, 0),
            PusError::NotAReport => in_numbers(15, 0, 0, 0),
            PusError::RequestNotOpen => in_numbers(16, 0, 0, 0),
            PusError::RequestOpen => in_numbers(17, 0, 0, 0),
            PusError::TrackerFull => in_numbers(18, 0, 0, 0),
            PusError::SpareLength => in_numbers(19, 0, 0, 0),
            PusError::SpareNotZero => in_numbers(20, 0, 0, 0),
            PusError::ParameterList => in_numbers(21, 0, 0, 0),
            PusError::UnknownParameter => in_numbers(22, 0, 0, 0),
            PusError::OctetsLeftOver => in_numbers(23, 0, 0, 0),
            PusError::ParameterValue => in_numbers(24, 0, 0, 0),
            PusError::ProfileLength => in_numbers(25, 0, 0, 0),
            PusError::ProfileSegmented => in_numbers(26, 0, 0, 0),
            PusError::ProfileApid => in_numbers(27, 0, 0, 0),
            PusError::ProfileService => in_numbers(28, 0, 0, 0),
            PusError::ProfileAcceptance => in_numbers(29, 0, 0, 0),
            PusError::ProfileData => in_numbers(30, 0, 0, 0),
            PusError::TooManyApids => in_numbers(31, 0, 0, 0),
            PusError::SourceWidth => in_numbers(32, 0, 0, 0),
        }
    }

    pub fn number(self) -> u8
        ensures { result ≡ (numbers_of self).number }
    {
        let n = self.numbers();
        n.number
    }
}

// 7 where the value is above the largest of its field.
fn in_range(place: u8, largest: u16, value: u16) -> Result<(), PusError>
    ensures { answer_of result ≡ in_range place largest value }
{
    if largest < value {
        return Err(PusError::FieldRange { place, value });
    }
    Ok(())
}

// ---- the numbers that have a width of their own

// An application process ID, 11 bits.
#[derive(Clone, Copy, PartialEq, Eq)]
pub struct Apid(u16);

// A packet sequence count, 14 bits.
#[derive(Clone, Copy, PartialEq, Eq)]
pub struct SeqCount(u16);

pub const MAX_APID: Apid = Apid(2047);

// All ones, which is reserved for idle packets.
pub const IDLE_APID: Apid = Apid(2047);

pub const MAX_SEQ_COUNT: SeqCount = SeqCount(16383);

// These hold the three to 11 bits, to what is reserved and to 14 bits, and are there for their contracts.
fn max_apid() -> Apid
    ensures { result ≡ record { 0 = 2 ^ 11 - 1 } }
{
    MAX_APID
}

fn idle_apid() -> Apid
    ensures { is_idle result ≡ true }
{
    IDLE_APID
}

fn max_seq_count() -> SeqCount
    ensures { result ≡ record { 0 = 2 ^ 14 - 1 } }
{
    MAX_SEQ_COUNT
}

impl Apid {
    pub fn new(value: u16) -> Result<Apid, PusError>
        ensures { answer_of result ≡ (in_range 2 2047 value then λ _. gives (record { 0 = value })) }
    {
        let apid = Apid(value);
        apid.check()?;
        Ok(apid)
    }

    pub fn value(self) -> u16
        ensures { result ≡ self.0 }
    {
        self.0
    }

    // What a setter and a write ask of an APID that is handed in.
    pub fn check(self) -> Result<(), PusError>
        ensures { answer_of result ≡ apid_check self }
    {
        in_range(2, MAX_APID.0, self.0)
    }

    // Whether this is the APID of idle packets.
    pub fn is_idle(self) -> bool
        ensures { result ≡ is_idle self }
    {
        self.0 == IDLE_APID.0
    }
}

impl SeqCount {
    pub fn new(value: u16) -> Result<SeqCount, PusError>
        ensures { answer_of result ≡ (in_range 3 16383 value then λ _. gives (record { 0 = value })) }
    {
        let count = SeqCount(value);
        count.check()?;
        Ok(count)
    }

    pub fn value(self) -> u16
        ensures { result ≡ self.0 }
    {
        self.0
    }

    // What a setter and a write ask of a count that is handed in.
    pub fn check(self) -> Result<(), PusError>
        ensures { answer_of result ≡ count_check self }
    {
        in_range(3, MAX_SEQ_COUNT.0, self.0)
    }
}

// ---- the packet type and the sequence flags

#[derive(Clone, Copy, PartialEq, Eq)]
pub enum PacketType {
    Tm,
    Tc,
}

impl PacketType {
    pub fn raw_value(self) -> u8
        ensures { result ≡ type_number self }
    {
        match self {
            PacketType::Tm => 0,
            PacketType::Tc => 1,
        }
    }

    // The type of the lowest bit.
    pub fn new_with_raw_value(value: u8) -> PacketType
        ensures { result ≡ type_of value }
    {
        if value % 2 == 1 {
            PacketType::Tc
        } else {
            PacketType::Tm
        }
    }
}

#[derive(Clone, Copy, PartialEq, Eq)]
pub enum SequenceFlags {
    ContinuationSegment,
    FirstSegment,
    LastSegment,
    Unsegmented,
}

impl SequenceFlags {
    pub fn raw_value(self) -> u8
        ensures { result ≡ flags_number self }
    {
        match self {
            SequenceFlags::ContinuationSegment => 0,
            SequenceFlags::FirstSegment => 1,
            SequenceFlags::LastSegment => 2,
            SequenceFlags::Unsegmented => 3,
        }
    }

    // The flags of the two lowest bits.
    pub fn new_with_raw_value(value: u8) -> SequenceFlags
        ensures { result ≡ flags_of value }
    {
        if value / 2 % 2 == 1 {
            if value % 2 == 1 {
                return SequenceFlags::Unsegmented;
            }
            return SequenceFlags::LastSegment;
        }
        if value % 2 == 1 {
            return SequenceFlags::FirstSegment;
        }
        SequenceFlags::ContinuationSegment
    }
}

// The packet type in a raw packet ID.
pub fn packet_type_in_raw_packet_id(packet_id: u16) -> PacketType
    ensures { result ≡ (id_of packet_id).packet_type }
{
    PacketType::new_with_raw_value((packet_id / 4096) as u8)
}

// ---- the packet ID: the last thirteen bits of the first two octets

#[derive(Clone, Copy, PartialEq, Eq)]
pub struct PacketId {
    pub packet_type: PacketType,
    pub sec_header_flag: bool,
    pub apid: Apid,
}

impl Default for PacketId {
    ghost is_default = { λ i. i ≡ id_from Tm false (record { 0 = 0 }) };

    fn default() -> PacketId {
        PacketId::new(PacketType::Tm, false, Apid(0))
    }
}

impl From<u16> for PacketId {
    ghost from_gives = { λ raw i. i ≡ id_of raw };

    // The packet ID of the last thirteen bits of a word.
    fn from(raw: u16) -> PacketId {
        PacketId::new(
            packet_type_in_raw_packet_id(raw),
            raw / 2048 % 2 == 1,
            Apid(raw % 2048),
        )
    }
}

impl PacketId {
    pub fn new_for_tc(sec_header: bool, apid: Apid) -> PacketId
        ensures { result ≡ id_from Tc sec_header apid }
    {
        PacketId::new(PacketType::Tc, sec_header, apid)
    }

    pub fn new_for_tm(sec_header: bool, apid: Apid) -> PacketId
        ensures { result ≡ id_from Tm sec_header apid }
    {
        PacketId::new(PacketType::Tm, sec_header, apid)
    }

    pub fn new(packet_type: PacketType, sec_header_flag: bool, apid: Apid) -> PacketId
        ensures { result ≡ id_from packet_type sec_header_flag apid }
    {
        PacketId {
            packet_type,
            sec_header_flag,
            apid,
        }
    }

    // 7 where the APID is over its width; the packet ID then stays as it was.
    pub fn set_apid(&mut self, apid: Apid) -> Result<(), PusError>
        ensures { outcome result self.new ≡ set_if (apid_check apid) self.old (id_with_apid self.old apid) }
    {
        apid.check()?;
        self.apid = apid;
        Ok(())
    }

    pub fn apid(self) -> Apid
        ensures { result ≡ self.apid }
    {
        self.apid
    }

    // The thirteen bits.
    pub fn raw(self) -> u16
        ensures { result ≡ id_raw self }
    {
        let t = self.packet_type.raw_value() as u16;
        let f = self.sec_header_flag as u16;
        t * 4096 + f * 2048 + self.apid.0 % 2048
    }
}

// ---- the packet sequence control: the third and the fourth octet

#[derive(Clone, Copy, PartialEq, Eq)]
pub struct PacketSequenceControl {
    pub seq_flags: SequenceFlags,
    pub seq_count: SeqCount,
}

impl From<u16> for PacketSequenceControl {
    ghost from_gives = { λ raw p. p ≡ psc_of raw };

    fn from(raw: u16) -> PacketSequenceControl {
        PacketSequenceControl::new(
            SequenceFlags::new_with_raw_value((raw / 16384) as u8),
            SeqCount(raw % 16384),
        )
    }
}

impl PacketSequenceControl {
    pub fn new(seq_flags: SequenceFlags, seq_count: SeqCount) -> PacketSequenceControl
        ensures { result ≡ psc_from seq_flags seq_count }
    {
        PacketSequenceControl {
            seq_flags,
            seq_count,
        }
    }

    pub fn raw(self) -> u16
        ensures { result ≡ psc_raw self }
    {
        let f = self.seq_flags.raw_value() as u16;
        f * 16384 + self.seq_count.0 % 16384
    }
}

// ---- the primary header

#[derive(Clone, Copy, PartialEq, Eq)]
pub struct SpacePacketHeader {
    // The packet version number, 3 bits.
    pub version: u8,
    pub packet_id: PacketId,
    pub psc: PacketSequenceControl,
    // The octets after the primary header, less one.
    pub data_len: u16,
}

pub type SpHeader = SpacePacketHeader;

// The octet at `at`, or 0 past the end.
pub fn octet_at(s: &[u8], at: usize) -> u8
    ensures { result ≡ get_or s.now at 0 }
{
    s.get(at).copied().unwrap_or(0)
}

// The sixteen bits in the octets at `at` and after it; an octet past the end counts as 0.
pub fn word_at(s: &[u8], at: usize) -> u16
    ensures { result ≡ word s.now at }
{
    if s.len() <= at {
        return 0;
    }
    octet_at(s, at) as u16 * 256 + octet_at(s, at + 1) as u16
}

// Writes three words, the higher octet of each first.
fn put_words(w0: u16, w1: u16, w2: u16, buf: &mut [u8])
    requires { 6 ≤ length buf.old }
    ensures { buf.new ≡ (be16 w0 ++ be16 w1 ++ be16 w2) ++ drop 6 buf.old }
{
    buf[0] = (w0 / 256) as u8;
    buf[1] = (w0 % 256) as u8;
    buf[2] = (w1 / 256) as u8;
    buf[3] = (w1 % 256) as u8;
    buf[4] = (w2 / 256) as u8;
    buf[5] = (w2 % 256) as u8;
}

impl Default for SpacePacketHeader {
    ghost is_default = { λ h. h ≡ header_of (id_from Tm false (record { 0 = 0 })) (psc_from Unsegmented (record { 0 = 0 })) 0 0 };

    // Unsegmented, with every other field 0.
    fn default() -> SpacePacketHeader {
        SpacePacketHeader::new_from_apid(Apid(0))
    }
}

impl SpacePacketHeader {
    pub const LENGTH: usize = CCSDS_HEADER_LEN;

    // Holds it to that length.
    fn own_length() -> usize
        ensures { (h : SpacePacketHeader) → result ≡ length (header_octets h) }
    {
        SpacePacketHeader::LENGTH
    }

    pub fn new(packet_id: PacketId, psc: PacketSequenceControl, data_len: u16) -> SpacePacketHeader
        ensures { result ≡ header_of packet_id psc data_len 0 }
    {
        SpacePacketHeader {
            version: 0,
            packet_id,
            psc,
            data_len,
        }
    }

    // Unsegmented, with count 0 and length 0.
    pub fn new_from_apid(apid: Apid) -> SpacePacketHeader
        ensures { result ≡ header_of (id_from Tm false apid) (psc_from Unsegmented (record { 0 = 0 })) 0 0 }
    {
        SpacePacketHeader::new_for_unseg_tm(apid, SeqCount(0), 0)
    }

    pub fn new_from_fields(
        ptype: PacketType,
        sec_header: bool,
        apid: Apid,
        seq_flags: SequenceFlags,
        seq_count: SeqCount,
        data_len: u16,
    ) -> SpacePacketHeader
        ensures { result ≡ header_of (id_from ptype sec_header apid) (psc_from seq_flags seq_count) data_len 0 }
    {
        SpacePacketHeader::new(
            PacketId::new(ptype, sec_header, apid),
            PacketSequenceControl::new(seq_flags, seq_count),
            data_len,
        )
    }

    pub fn new_for_tm(
        apid: Apid,
        seq_flags: SequenceFlags,
        seq_count: SeqCount,
        data_len: u16,
    ) -> SpacePacketHeader
        ensures { result ≡ header_of (id_from Tm false apid) (psc_from seq_flags seq_count) data_len 0 }
    {
        SpacePacketHeader::new_from_fields(
            PacketType::Tm,
            false,
            apid,
            seq_flags,
            seq_count,
            data_len,
        )
    }

    pub fn new_for_tc(
        apid: Apid,
        seq_flags: SequenceFlags,
        seq_count: SeqCount,
        data_len: u16,
    ) -> SpacePacketHeader
        ensures { result ≡ header_of (id_from Tc false apid) (psc_from seq_flags seq_count) data_len 0 }
    {
        SpacePacketHeader::new_from_fields(
            PacketType::Tc,
            false,
            apid,
            seq_flags,
            seq_count,
            data_len,
        )
    }

    pub fn new_for_unseg_tc(apid: Apid, seq_count: SeqCount, data_len: u16) -> SpacePacketHeader
        ensures { result ≡ header_of (id_from Tc false apid) (psc_from Unsegmented seq_count) data_len 0 }
    {
        SpacePacketHeader::new_for_tc(apid, SequenceFlags::Unsegmented, seq_count, data_len)
    }

    pub fn new_for_unseg_tm(apid: Apid, seq_count: SeqCount, data_len: u16) -> SpacePacketHeader
        ensures { result ≡ header_of (id_from Tm false apid) (psc_from Unsegmented seq_count) data_len 0 }
    {
        SpacePacketHeader::new_for_tm(apid, SequenceFlags::Unsegmented, seq_count, data_len)
    }

    // 7 where the version number is over its width.
    pub fn new_from_composite_fields(
        packet_id: PacketId,
        psc: PacketSequenceControl,
        data_len: u16,
        version: u8,
    ) -> Result<SpacePacketHeader, PusError>
        ensures { answer_of result ≡ (in_range 1 7 version then λ _. gives (header_of packet_id psc data_len version)) }
    {
        in_range(1, 7, version as u16)?;
        Ok(SpacePacketHeader {
            version,
            packet_id,
            psc,
            data_len,
        })
    }

    // ---- setters; the first two answer 7 where what is handed in is over its width, and the header then stays as it was

    pub fn set_apid(&mut self, apid: Apid) -> Result<(), PusError>
        ensures { outcome result self.new ≡ set_if (apid_check apid) self.old (with_id self.old (id_with_apid self.old.packet_id apid)) }
    {
        self.packet_id.set_apid(apid)
    }

    pub fn set_seq_count(&mut self, seq_count: SeqCount) -> Result<(), PusError>
        ensures { outcome result self.new ≡ set_if (count_check seq_count) self.old (with_psc self.old (psc_from self.old.psc.seq_flags seq_count)) }
    {
        seq_count.check()?;
        self.psc.seq_count = seq_count;
        Ok(())
    }

    pub fn set_seq_flags(&mut self, seq_flags: SequenceFlags)
        ensures { self.new ≡ with_psc self.old (psc_from seq_flags self.old.psc.seq_count) }
    {
        self.psc.seq_flags = seq_flags;
    }

    pub fn set_sec_header_flag(&mut self)
        ensures { self.new ≡ with_id self.old (id_from self.old.packet_id.packet_type true self.old.packet_id.apid) }
    {
        self.packet_id.sec_header_flag = true;
    }

    pub fn clear_sec_header_flag(&mut self)
        ensures { self.new ≡ with_id self.old (id_from self.old.packet_id.packet_type false self.old.packet_id.apid) }
    {
        self.packet_id.sec_header_flag = false;
    }

    pub fn set_packet_type(&mut self, packet_type: PacketType)
        ensures { self.new ≡ with_id self.old (id_from packet_type self.old.packet_id.sec_header_flag self.old.packet_id.apid) }
    {
        self.packet_id.packet_type = packet_type;
    }

    // ---- reading

    pub fn ccsds_version(self) -> u8
        ensures { result ≡ self.version }
    {
        self.version
    }

    pub fn packet_id(self) -> PacketId
        ensures { result ≡ self.packet_id }
    {
        self.packet_id
    }

    pub fn psc(self) -> PacketSequenceControl
        ensures { result ≡ self.psc }
    {
        self.psc
    }

    pub fn data_len(self) -> u16
        ensures { result ≡ self.data_len }
    {
        self.data_len
    }

    // The total that the length field states.
    pub fn packet_len(self) -> usize
        ensures { result ≡ packet_len self }
    {
        self.data_len as usize + CCSDS_HEADER_LEN + 1
    }

    pub fn packet_id_raw(self) -> u16
        ensures { result ≡ id_raw self.packet_id }
    {
        self.packet_id.raw()
    }

    pub fn psc_raw(self) -> u16
        ensures { result ≡ psc_raw self.psc }
    {
        self.psc.raw()
    }

    pub fn packet_type(self) -> PacketType
        ensures { result ≡ self.packet_id.packet_type }
    {
        self.packet_id.packet_type
    }

    pub fn is_tm(self) -> bool
        ensures { result ≡ eqb (type_number self.packet_id.packet_type) 0 }
    {
        self.packet_type() == PacketType::Tm
    }

    pub fn is_tc(self) -> bool
        ensures { result ≡ eqb (type_number self.packet_id.packet_type) 1 }
    {
        self.packet_type() == PacketType::Tc
    }

    pub fn sec_header_flag(self) -> bool
        ensures { result ≡ self.packet_id.sec_header_flag }
    {
        self.packet_id.sec_header_flag
    }

    pub fn apid(self) -> Apid
        ensures { result ≡ self.packet_id.apid }
    {
        self.packet_id.apid
    }

    pub fn seq_count(self) -> SeqCount
        ensures { result ≡ self.psc.seq_count }
    {
        self.psc.seq_count
    }

    pub fn sequence_flags(self) -> SequenceFlags
        ensures { result ≡ self.psc.seq_flags }
    {
        self.psc.seq_flags
    }

    // ---- octets

    // The header that octets begin with; 2 where there are fewer than six.
    pub fn from_be_bytes(buf: &[u8]) -> Result<SpacePacketHeader, PusError>
        ensures { answer_of result ≡ header_read buf.now }
    {
        if buf.len() < SpacePacketHeader::LENGTH {
            return Err(PusError::ByteConversion(ByteConversionError::FromSliceTooSmall {
                found: buf.len(),
                expected: SpacePacketHeader::LENGTH,
            }));
        }
        let w = word_at(buf, 0);
        Ok(SpacePacketHeader {
            version: (w / 8192) as u8,
            packet_id: PacketId::from(w),
            psc: PacketSequenceControl::from(word_at(buf, 2)),
            data_len: word_at(buf, 4),
        })
    }

    // What stands after the header that octets begin with; empty where from_be_bytes is refused.
    pub fn rest_of_be_bytes(buf: &[u8]) -> &[u8]
        ensures result_value { result.now ≡ drop 6 buf.now }
        ensures ref_ptr_value { result.ref_ptr ≡ beyond (reached 6 buf.now) buf.entry.ref_ptr }
    {
        if buf.len() < CCSDS_HEADER_LEN {
            return &buf[..0];
        }
        &buf[CCSDS_HEADER_LEN..]
    }

    // The first field over its width, as 7.
    #[tactic(auto, unfolding(crate::specs::Answer::and_then, crate::specs::Header::header_check))]
    pub fn check(self) -> Result<(), PusError>
        ensures { answer_of result ≡ header_check self }
    {
        in_range(1, 7, self.version as u16)?;
        self.packet_id.apid.check()?;
        self.psc.seq_count.check()
    }

    // Writes the six octets; 7, then 1.
    pub fn write_to_slice(self, buf: &mut [u8]) -> Result<usize, PusError>
        ensures { Wrote (header_write self (length buf.old)) (header_octets self) buf.old result buf.new }
    {
        self.check()?;
        if buf.len() < SpacePacketHeader::LENGTH {
            return Err(PusError::ByteConversion(ByteConversionError::ToSliceTooSmall {
                found: buf.len(),
                expected: SpacePacketHeader::LENGTH,
            }));
        }
        self.put(buf);
        Ok(SpacePacketHeader::LENGTH)
    }

    fn put(self, buf: &mut [u8])
        requires { (InRange self) × (6 ≤ length buf.old) }
        ensures { buf.new ≡ header_octets self ++ drop 6 buf.old }
    {
        let w0 = self.version as u16 * 8192 + self.packet_id_raw();
        put_words(w0, self.psc_raw(), self.data_len, buf);
    }
}
