// What every PUS packet shares, after ECSS-E-ST-70-41C: its version, its message type, the verifying of its checksum, and
// its frame.
#![tactic(auto, unfolding(space_packet::specs::Answer::and_then, space_packet::specs::Answer::set_if, space_packet::specs::Answer::refuse_if))]

ghost use Rattle.std.specs.Prelude.{◌≡◌, ℕ, ◌<◌};
ghost use Rattle.crc_register.specs.Crc.{run, octet_bits};
ghost use Rattle.space_packet.specs.Answer.{numbers_of, answer_of};
ghost use Rattle.ecss.specs.Version.{version_number, version_of, version_is, message_type_of, default_config};
ghost use Rattle.ecss.specs.Frame.{verifies, verified};
ghost use Rattle.ecss.specs.Kind.{pus_rule};

pub use space_packet::{ByteConversionError, PusError};
use space_packet::{PacketType, SpHeader};

pub mod frame;
mod packet;

pub use packet::PusPacket;

// All PUS versions; PUS A and PUS C are written.
#[derive(Clone, Copy, PartialEq, Eq)]
pub enum PusVersion {
    EsaPus,
    PusA,
    PusC,
}

impl TryFrom<u8> for PusVersion {
    type Error = PusError;

    ghost try_from_gives = { λ value r. answer_of r ≡ version_of value };

    // The version of a nibble; 3 for a nibble that names none.
    #[tactic(auto, unfolding(crate::specs::Version::version_of))]
    fn try_from(value: u8) -> Result<PusVersion, PusError> {
        match value {
            0 => Ok(PusVersion::EsaPus),
            1 => Ok(PusVersion::PusA),
            2 => Ok(PusVersion::PusC),
            _ => Err(PusError::VersionNotSupported(value)),
        }
    }
}

impl PusVersion {
    pub fn raw_value(self) -> u8
        ensures { result ≡ version_number self }
    {
        match self {
            PusVersion::EsaPus => 0,
            PusVersion::PusA => 1,
            PusVersion::PusC => 2,
        }
    }

    // What a write asks: 3 for another version than its own.
    pub fn check(self, own: PusVersion) -> Result<(), PusError>
        ensures { answer_of result ≡ version_is own self }
    {
        if self != own {
            return Err(PusError::VersionNotSupported(self.raw_value()));
        }
        Ok(())
    }
}

#[derive(Clone, Copy, PartialEq, Eq)]
pub struct MessageTypeId {
    // The service type.
    pub type_id: u8,
    // The message subtype.
    pub subtype_id: u8,
}

impl MessageTypeId {
    pub fn new(type_id: u8, subtype_id: u8) -> MessageTypeId
        ensures { result ≡ message_type_of type_id subtype_id }
    {
        MessageTypeId {
            type_id,
            subtype_id,
        }
    }
}

#[derive(Clone, Copy, PartialEq, Eq)]
pub struct CreatorConfig {
    // Whether construction sets the length field.
    pub set_ccsds_len: bool,
    // Whether a checksum ends the packet.
    pub has_checksum: bool,
}

impl Default for CreatorConfig {
    ghost is_default = { λ c. c ≡ default_config };

    fn default() -> CreatorConfig {
        CreatorConfig {
            set_ccsds_len: true,
            has_checksum: true,
        }
    }
}

// 2 for fewer octets than a checksum has. 4, with the number handed in and the checksum of all but the last two octets, where the
// octets do not verify. Both names run with no table, the faster at every length of a packet, and once over the octets: where the
// checksum over all of them is not 0, the one before the last two is found by going back over these.
pub fn verify_crc16_ccitt_false_from_raw_to_pus_error(
    raw_data: &[u8],
    crc16: u16,
) -> Result<(), PusError>
    ensures { answer_of result ≡ verified raw_data.now crc16 }
{
    let n = raw_data.len();
    if n < 2 {
        return Err(PusError::ByteConversion(ByteConversionError::FromSliceTooSmall {
            found: n,
            expected: 2,
        }));
    }
    let all = crc::crc_ccitt_false_no_table(raw_data);
    if all == 0 {
        return Ok(());
    }
    let computed = octet_back(octet_back(all, raw_data[n - 1]), raw_data[n - 2]);
    Err(PusError::ChecksumFailure {
        stored: crc16,
        computed,
    })
}

// The checksum's register before the octet b, from the one after it: the low half tells the number of the entry that was added, and
// this what was in the high half.
fn octet_back(r: u16, b: u8) -> u16
    ensures { (p : ℕ) → p < 65536 → run p (octet_bits b) ≡ r → result ≡ p }
{
    let low = r % 256;
    let y = (low ^ (low << 5)) % 256;
    let x = y ^ (y >> 4);
    let entry = crc_register::no_table_octet(x << 8, 0);
    ((x ^ (b as u16)) << 8) ^ ((r ^ entry) >> 8)
}

pub fn verify_crc16_ccitt_false_from_raw_to_pus_error_no_table(
    raw_data: &[u8],
    crc16: u16,
) -> Result<(), PusError>
    ensures { answer_of result ≡ verified raw_data.now crc16 }
{
    verify_crc16_ccitt_false_from_raw_to_pus_error(raw_data, crc16)
}

pub fn verify_crc16_ccitt_false_from_raw(raw_data: &[u8]) -> bool
    ensures { result ≡ verifies raw_data.now }
{
    crc::crc_ccitt_false_no_table(raw_data) == 0
}

pub fn verify_crc16_ccitt_false_from_raw_no_table(raw_data: &[u8]) -> bool
    ensures { result ≡ verifies raw_data.now }
{
    verify_crc16_ccitt_false_from_raw(raw_data)
}

// The strict checks that every kind of packet shares, in their order; `octet` is the first of the secondary header, and a packet
// of another type is refused with `other`.
pub fn pus_rule(
    packet_type: PacketType,
    other: PusError,
    version: u8,
    h: SpHeader,
    octet: u8,
) -> Result<(), PusError>
    ensures { answer_of result ≡ pus_rule packet_type (numbers_of other) version h octet }
{
    if h.version != 0 {
        return Err(PusError::PacketVersion(h.version));
    }
    if h.packet_type() != packet_type {
        return Err(other);
    }
    if !h.sec_header_flag() {
        return Err(PusError::NoSecondaryHeader);
    }
    let nibble = octet / 16;
    if nibble != version {
        return Err(PusError::VersionNotSupported(nibble));
    }
    if h.apid().is_idle() {
        return Err(PusError::IdleApid);
    }
    Ok(())
}
