// The secondary header of a telecommand after ECSS-E-ST-70-41C and, for PUS A, ECSS-E-70-41A; its form, and its acknowledgement
// flags. The calls named after the Rust have PUS C with no spare octets; their siblings, which end in `_in`, take a form.
#![tactic(auto, unfolding(space_packet::specs::Answer::and_then, space_packet::specs::Answer::set_if, space_packet::specs::Answer::refuse_if))]

ghost use Rattle.std.specs.Prelude.{◌≡◌, [], ◌++◌, true, ◌+◌, ◌*◌, ◌/◌, ◌%◌, ◌<◌, ◌≤◌, length, get_or, take, drop, replicate};
ghost use Rattle.space_packet.specs.Bits.{lowest};
ghost use Rattle.space_packet.specs.Answer.{refusal, gives, refuses, ◌then◌, in_range, answer_of};
ghost use Rattle.space_packet.specs.Part.{beyond};
ghost use Rattle.space_packet.specs.Wrote.{Wrote};
ghost use Rattle.space_packet.specs.declared.PacketType.TheVariants.{Tc};
ghost use Rattle.ecss.specs.Kind.{start_of, secondary_of, secondary_at, pus_rule, strict_rule};
ghost use Rattle.ecss.specs.Version.{version_number};
ghost use Rattle.ecss.specs.declared.PusVersion.TheVariants.{PusC};
ghost use Rattle.tc_header.specs.Form.{form_spare, form_c, form_a, is_width, form_check, source_len, source_octets, source_at, source_check, spare_at, spare_of, all_zero, spare_rule};
ghost use Rattle.tc_header.specs.Header.{ack_check, ack_of, with_flag, first_octets, tc_octets, sec_octets, sec_from, version_in, version_check, fields_check, widths_check, sec_made, sec_checks, sec_write_in, sec_write, sec_read_in, sec_read, tc, pus_c};

use ecss::{MessageTypeId, PusError, PusVersion, frame};
use space_packet::{ByteConversionError, CCSDS_HEADER_LEN, PacketType, SpHeader};

// Length of the secondary header of PUS C with no spare octets.
pub const PUC_TC_SECONDARY_HEADER_LEN: usize = 5;
// Least length of such a telecommand, with no data and no checksum.
pub const PUS_TC_MIN_LEN_WITHOUT_APP_DATA: usize = 11;

// These hold the two to the size of that header and to the octet at which the data starts, and are there for their contracts.
fn secondary_len() -> usize
    ensures { result ≡ pus_c.size }
{
    PUC_TC_SECONDARY_HEADER_LEN
}

fn min_len() -> usize
    ensures { result ≡ start_of pus_c }
{
    PUS_TC_MIN_LEN_WITHOUT_APP_DATA
}

// ---- the form

// The edition of a telecommand, and with it the width of its source ID in bits and how many spare octets end its secondary header.
#[derive(Clone, Copy, PartialEq, Eq)]
pub struct TcForm {
    version: PusVersion,
    source_width: u8,
    spare_len: u8,
}

impl TcForm {
    // The most spare octets of a form that is taken.
    pub const MAX_SPARE_LEN: usize = 4;
    // Its longest secondary header.
    pub const MAX_SEC_HEADER_LEN: usize = PUC_TC_SECONDARY_HEADER_LEN + TcForm::MAX_SPARE_LEN;

    // ECSS-E-ST-70-41C: a source ID of 16 bits, and no spare.
    pub const PUS_C: TcForm = TcForm {
        version: PusVersion::PusC,
        source_width: 16,
        spare_len: 0,
    };

    // These hold the three to the forms that are taken, and are there for their contracts.
    #[tactic(auto, unfolding(space_packet::specs::Answer::refuse_if, crate::specs::Form::form_check))]
    fn max_spare_len() -> usize
        ensures { (form_check (form_spare result) ≡ gives tt) × (form_check (form_spare (result + 1)) ≡ refuses (refusal 19 [])) }
    {
        TcForm::MAX_SPARE_LEN
    }

    fn max_sec_header_len() -> usize
        ensures { result ≡ (tc (form_spare 4)).size }
    {
        TcForm::MAX_SEC_HEADER_LEN
    }

    fn pus_c_alone() -> TcForm
        ensures { result ≡ form_c }
    {
        TcForm::PUS_C
    }

    // ECSS-E-ST-70-41C with 0 to 4 spare octets, as the mission fixes them. More are refused where the form is used.
    pub fn pus_c(spare_len: u8) -> TcForm
        ensures { result ≡ form_spare spare_len }
    {
        TcForm {
            version: PusVersion::PusC,
            source_width: 16,
            spare_len,
        }
    }

    // ECSS-E-70-41A: a source ID of 0, 8 or 16 bits, as the mission fixes it. Another width is refused where the form is used.
    pub fn pus_a(source_width: u8) -> TcForm
        ensures { result ≡ form_a source_width }
    {
        TcForm {
            version: PusVersion::PusA,
            source_width,
            spare_len: 0,
        }
    }

    pub fn version(self) -> PusVersion
        ensures { result ≡ self.version }
    {
        self.version
    }

    pub fn source_width(self) -> u8
        ensures { result ≡ self.source_width }
    {
        self.source_width
    }

    pub fn spare_len(self) -> u8
        ensures { result ≡ self.spare_len }
    {
        self.spare_len
    }

    // 32 for another width than 0, 8 and 16; 19 for more than four spare octets.
    #[tactic(auto, unfolding(space_packet::specs::Answer::refuse_if, crate::specs::Form::form_check))]
    pub fn check(self) -> Result<(), PusError>
        ensures { answer_of result ≡ form_check self }
    {
        if !is_width(self.source_width) {
            return Err(PusError::SourceWidth);
        }
        if TcForm::MAX_SPARE_LEN < self.spare_len as usize {
            return Err(PusError::SpareLength);
        }
        Ok(())
    }

    // Where the spare octets begin in the secondary header: behind three octets and the source ID.
    fn spare_at(self) -> usize
        ensures { result ≡ spare_at self }
    {
        3 + (self.source_width / 8) as usize
    }

    // Length of the secondary header.
    pub fn sec_header_len(self) -> usize
        ensures { result ≡ (tc self).size }
    {
        self.spare_at() + self.spare_len as usize
    }

    // Least length of a telecommand, with no data and no checksum: the octet at which the data starts.
    pub fn min_len_without_app_data(self) -> usize
        ensures { result ≡ start_of (tc self) }
    {
        CCSDS_HEADER_LEN + self.sec_header_len()
    }

    // The octets of the secondary header in a packet; fewer where the packet is shorter.
    pub fn sec_header_part(self, packet: &[u8]) -> &[u8]
        ensures result_value { result.now ≡ secondary_of (tc self).size packet.now }
        ensures ref_ptr_value { result.ref_ptr ≡ beyond (secondary_at packet.now) packet.entry.ref_ptr }
    {
        frame::sec_header_part(packet, self.sec_header_len())
    }

    // What a setter and a write ask of a source ID: 7 where it is over its width.
    pub fn check_source_id(self, source_id: u16) -> Result<(), PusError>
        ensures { answer_of result ≡ source_check (source_len self) source_id }
    {
        let largest = match self.source_width / 8 {
            0 => 0,
            1 => 255,
            _ => u16::MAX,
        };
        if largest < source_id {
            return Err(PusError::FieldRange {
                place: 5,
                value: source_id,
            });
        }
        Ok(())
    }

    // The source ID that stands at octet 3; 0 where it has no octet.
    fn source_at(self, s: &[u8]) -> u16
        requires { 3 + source_len self ≤ length s.now }
        ensures { result ≡ source_at (source_len self) s.now }
    {
        match self.source_width / 8 {
            0 => 0,
            1 => s[3] as u16,
            _ => space_packet::word_at(s, 3),
        }
    }

    // Writes the source ID behind three octets.
    fn put_source(self, source_id: u16, buf: &mut [u8])
        requires { (source_len self ≤ 2) × (3 + source_len self ≤ length buf.old) }
        ensures { buf.new ≡ take 3 buf.old ++ source_octets (source_len self) source_id ++ drop (3 + source_len self) buf.old }
    {
        match self.source_width / 8 {
            0 => {}
            1 => buf[3] = (source_id % 256) as u8,
            _ => buf[3..5].copy_from_slice(&source_id.to_be_bytes()),
        }
    }

    // Writes zeros to the spare octets.
    fn put_spare(self, buf: &mut [u8])
        requires { (tc self).size ≤ length buf.old }
        ensures { buf.new ≡ take (spare_at self) buf.old ++ replicate self.spare_len 0 ++ drop (tc self).size buf.old }
    {
        buf[self.spare_at()..self.sec_header_len()].fill(0);
    }

    // The spare octets of a secondary header.
    fn spare_part(self, second: &[u8]) -> &[u8]
        ensures { result.now ≡ spare_of self second.now }
    {
        frame::part_at(second, self.spare_at(), self.spare_len as usize)
    }

    // What the strict checks ask of them: 20 where one is not zero.
    fn check_spare(self, second: &[u8]) -> Result<(), PusError>
        ensures { answer_of result ≡ spare_rule self second.now }
    {
        if !all_zero(self.spare_part(second)) {
            return Err(PusError::SpareNotZero);
        }
        Ok(())
    }
}

fn is_width(w: u8) -> bool
    ensures { result ≡ is_width w }
{
    matches!(w, 0 | 8 | 16)
}

#[tactic(auto, unfolding(crate::specs::Form::all_zero))]
fn all_zero(s: &[u8]) -> bool
    ensures { result ≡ all_zero s.now }
{
    s.iter().all(|octet| *octet == 0)
}

// ---- the acknowledgement flags

// Four bits: acceptance 8, start 4, progress 2, completion 1, as ECSS-E-ST-70-41C names them. ECSS-E-70-41A, whose text
// is not at hand, is taken to name them the other way round: acceptance 1, start 2, progress 4, completion 8. What is asked for of PUS A is the octet, which has these
// four bits as they are handed in, and not their names. So for PUS A set them by their value, or take `acceptance` here for completion
// there and `start` for progress. All four, none, and the builder's acceptance with completion are the same bits in either order, and
// no other code of this library goes by the names of a PUS A command.
#[derive(Clone, Copy, PartialEq, Eq)]
pub struct AckFlags(u8);

pub const ACK_ALL: AckFlags = AckFlags(15);

// Holds it to all four, and is there for its contract.
fn ack_all() -> AckFlags
    ensures { result ≡ with_flag 8 (with_flag 4 (with_flag 2 (with_flag 1 (ack_of 0) true) true) true) true }
{
    ACK_ALL
}

impl Default for AckFlags {
    ghost is_default = { λ a. a ≡ ack_of 0 };

    // No flag is set.
    fn default() -> AckFlags {
        AckFlags(0)
    }
}

impl AckFlags {
    pub const ALL: AckFlags = ACK_ALL;

    // Holds it to the same.
    fn all() -> AckFlags
        ensures { result ≡ with_flag 8 (with_flag 4 (with_flag 2 (with_flag 1 (ack_of 0) true) true) true) true }
    {
        AckFlags::ALL
    }

    // 7 where the value is over four bits.
    pub fn new_with_raw_value(value: u8) -> Result<AckFlags, PusError>
        ensures { answer_of result ≡ (in_range 4 15 value then λ _. gives (ack_of value)) }
    {
        let flags = AckFlags(value);
        flags.check()?;
        Ok(flags)
    }

    pub fn raw_value(self) -> u8
        ensures { result ≡ self.0 }
    {
        self.0
    }

    // What a setter and a write ask of flags that are handed in.
    pub fn check(self) -> Result<(), PusError>
        ensures { answer_of result ≡ ack_check self }
    {
        if 15 < self.0 {
            return Err(PusError::FieldRange {
                place: 4,
                value: self.0 as u16,
            });
        }
        Ok(())
    }

    pub fn acceptance(self) -> bool
        ensures { result ≡ lowest (self.0 / 8) }
    {
        self.0 / 8 % 2 == 1
    }

    pub fn start(self) -> bool
        ensures { result ≡ lowest (self.0 / 4) }
    {
        self.0 / 4 % 2 == 1
    }

    pub fn progress(self) -> bool
        ensures { result ≡ lowest (self.0 / 2) }
    {
        self.0 / 2 % 2 == 1
    }

    pub fn completion(self) -> bool
        ensures { result ≡ lowest self.0 }
    {
        self.0 % 2 == 1
    }

    pub fn with_acceptance(self, value: bool) -> AckFlags
        ensures { result ≡ with_flag 8 self value }
    {
        self.with_flag(8, value)
    }

    pub fn with_start(self, value: bool) -> AckFlags
        ensures { result ≡ with_flag 4 self value }
    {
        self.with_flag(4, value)
    }

    pub fn with_progress(self, value: bool) -> AckFlags
        ensures { result ≡ with_flag 2 self value }
    {
        self.with_flag(2, value)
    }

    pub fn with_completion(self, value: bool) -> AckFlags
        ensures { result ≡ with_flag 1 self value }
    {
        self.with_flag(1, value)
    }

    // The flags with the bit of a weight set or cleared.
    fn with_flag(self, weight: u8, value: bool) -> AckFlags
        requires { (0 < weight) × (weight ≤ 8) × (self.0 / (2 * weight) * (2 * weight) + weight + self.0 % weight ≤ 255) }
        ensures { result ≡ with_flag weight self value }
    {
        let both = 2 * weight;
        AckFlags(self.0 / both * both + value as u8 * weight + self.0 % weight)
    }
}

// ---- the secondary header

#[derive(Clone, Copy, PartialEq, Eq)]
pub struct PusTcSecondaryHeader {
    pub message_type_id: MessageTypeId,
    pub source_id: u16,
    pub ack_flags: AckFlags,
    pub version: PusVersion,
}

impl PusTcSecondaryHeader {
    pub const HEADER_LEN: usize = PUC_TC_SECONDARY_HEADER_LEN;

    // Holds it to the size of PUS C's, and is there for its contract.
    fn header_len() -> usize
        ensures { result ≡ (tc form_c).size }
    {
        PusTcSecondaryHeader::HEADER_LEN
    }

    // All four acknowledgements, and source 0.
    pub fn new_simple(message_type_id: MessageTypeId) -> PusTcSecondaryHeader
        ensures { result ≡ sec_from message_type_id (ack_of 15) 0 PusC }
    {
        PusTcSecondaryHeader::new(message_type_id, AckFlags::ALL, 0)
    }

    pub fn new(
        message_type_id: MessageTypeId,
        ack_flags: AckFlags,
        source_id: u16,
    ) -> PusTcSecondaryHeader
        ensures { result ≡ sec_from message_type_id ack_flags source_id PusC }
    {
        PusTcSecondaryHeader {
            message_type_id,
            source_id,
            ack_flags,
            version: PusVersion::PusC,
        }
    }

    // With the form's version; 32, 19, 7.
    pub fn new_in(
        form: TcForm,
        message_type_id: MessageTypeId,
        ack_flags: AckFlags,
        source_id: u16,
    ) -> Result<PusTcSecondaryHeader, PusError>
        ensures { answer_of result ≡ sec_made form (sec_from message_type_id ack_flags source_id form.version) }
    {
        let made = PusTcSecondaryHeader {
            message_type_id,
            source_id,
            ack_flags,
            version: form.version(),
        };
        made.check_widths(form)?;
        Ok(made)
    }

    // All four acknowledgements, and source 0; 32, 19.
    pub fn new_simple_in(
        form: TcForm,
        message_type_id: MessageTypeId,
    ) -> Result<PusTcSecondaryHeader, PusError>
        ensures { answer_of result ≡ sec_made form (sec_from message_type_id (ack_of 15) 0 form.version) }
    {
        PusTcSecondaryHeader::new_in(form, message_type_id, AckFlags::ALL, 0)
    }

    pub fn pus_version(self) -> PusVersion
        ensures { result ≡ self.version }
    {
        self.version
    }

    pub fn ack_flags(self) -> AckFlags
        ensures { result ≡ self.ack_flags }
    {
        self.ack_flags
    }

    pub fn message_type_id(self) -> MessageTypeId
        ensures { result ≡ self.message_type_id }
    {
        self.message_type_id
    }

    pub fn source_id(self) -> u16
        ensures { result ≡ self.source_id }
    {
        self.source_id
    }

    pub fn service_type_id(self) -> u8
        ensures { result ≡ self.message_type_id.type_id }
    {
        self.message_type_id.type_id
    }

    pub fn message_subtype_id(self) -> u8
        ensures { result ≡ self.message_type_id.subtype_id }
    {
        self.message_type_id.subtype_id
    }

    // What a write asks of the version: 3 for another than C.
    pub fn check_version(self) -> Result<(), PusError>
        ensures { answer_of result ≡ version_check self.version }
    {
        self.check_version_in(TcForm::PUS_C)
    }

    // 3 for another version than the form's.
    pub fn check_version_in(self, form: TcForm) -> Result<(), PusError>
        ensures { answer_of result ≡ version_in form self.version }
    {
        self.version.check(form.version)
    }

    // What a setter and a write ask of its fields: 7 where one is over its width.
    pub fn check_fields_in(self, form: TcForm) -> Result<(), PusError>
        ensures { answer_of result ≡ fields_check form self }
    {
        self.ack_flags.check()?;
        form.check_source_id(self.source_id)
    }

    // The form, then the fields; 32, 19, 7.
    fn check_widths(self, form: TcForm) -> Result<(), PusError>
        ensures { answer_of result ≡ widths_check form self }
    {
        form.check()?;
        self.check_fields_in(form)
    }

    // The header that five octets are; 2 where there are fewer. The version is always C.
    pub fn from_be_bytes(s: &[u8]) -> Result<PusTcSecondaryHeader, PusError>
        ensures { answer_of result ≡ sec_read s.now }
    {
        PusTcSecondaryHeader::from_be_bytes_in(TcForm::PUS_C, s)
    }

    // The header that as many octets are as the form has; 32, 19, 2. The version is always the form's.
    #[tactic(auto, unfolding(space_packet::specs::Answer::and_then, space_packet::specs::Answer::refuse_if, crate::specs::Header::sec_read_in, crate::specs::Header::tc_of))]
    pub fn from_be_bytes_in(form: TcForm, s: &[u8]) -> Result<PusTcSecondaryHeader, PusError>
        ensures { answer_of result ≡ sec_read_in form s.now }
    {
        form.check()?;
        let expected = form.sec_header_len();
        if s.len() < expected {
            return Err(PusError::ByteConversion(ByteConversionError::FromSliceTooSmall {
                found: s.len(),
                expected,
            }));
        }
        Ok(PusTcSecondaryHeader {
            message_type_id: MessageTypeId::new(s[1], s[2]),
            source_id: form.source_at(s),
            ack_flags: AckFlags(s[0] % 16),
            version: form.version,
        })
    }

    // What a write into that many octets asks; 32, 19, 7, 1, 3.
    #[tactic(auto, unfolding(space_packet::specs::Answer::and_then, space_packet::specs::Answer::refuse_if, crate::specs::Header::sec_checks))]
    fn check(self, form: TcForm, room: usize) -> Result<(), PusError>
        ensures { answer_of result ≡ sec_checks form self room }
    {
        self.check_widths(form)?;
        let expected = form.sec_header_len();
        if room < expected {
            return Err(PusError::ByteConversion(ByteConversionError::ToSliceTooSmall {
                found: room,
                expected,
            }));
        }
        self.check_version_in(form)
    }

    // Writes the five octets; 7, 1, 3.
    pub fn write_to_slice(self, buf: &mut [u8]) -> Result<usize, PusError>
        ensures { Wrote (sec_write self (length buf.old)) (sec_octets self) buf.old result buf.new }
    {
        self.write_to_slice_in(TcForm::PUS_C, buf)
    }

    // Writes as many octets as the form has; 32, 19, 7, 1, 3.
    #[tactic(auto, unfolding(space_packet::specs::Answer::and_then, crate::specs::Header::sec_write_in))]
    pub fn write_to_slice_in(self, form: TcForm, buf: &mut [u8]) -> Result<usize, PusError>
        ensures { Wrote (sec_write_in form self (length buf.old)) (tc_octets form self) buf.old result buf.new }
    {
        self.check(form, buf.len())?;
        self.put(form, buf);
        Ok(form.sec_header_len())
    }

    #[tactic(auto, unfolding(crate::specs::Header::tc_octets))]
    fn put(self, form: TcForm, buf: &mut [u8])
        requires { (self.ack_flags.0 ≤ 15) × ((source_len form ≤ 2) × ((tc form).size ≤ length buf.old)) }
        ensures { buf.new ≡ tc_octets form self ++ drop (tc form).size buf.old }
    {
        self.put_first(buf);
        form.put_source(self.source_id, buf);
        form.put_spare(buf);
    }

    // Writes the three octets before the source ID.
    fn put_first(self, buf: &mut [u8])
        requires { (self.ack_flags.0 ≤ 15) × (3 ≤ length buf.old) }
        ensures { buf.new ≡ first_octets self ++ drop 3 buf.old }
    {
        buf[0] = self.version.raw_value() * 16 + self.ack_flags.0;
        buf[1] = self.message_type_id.type_id;
        buf[2] = self.message_type_id.subtype_id;
    }
}

// The strict checks of a telecommand, on its primary header and its secondary header's octets; 9, 10, 11, 3, 12, 20.
#[tactic(auto, unfolding(space_packet::specs::Answer::and_then, ecss::specs::Kind::strict_rule))]
pub fn strict_rule(form: TcForm, h: SpHeader, second: &[u8]) -> Result<(), PusError>
    ensures { answer_of result ≡ strict_rule (tc form) h second.now }
{
    shared_rule(form, h, second)?;
    form.check_spare(second)
}

// Those that every kind shares.
fn shared_rule(form: TcForm, h: SpHeader, second: &[u8]) -> Result<(), PusError>
    ensures { answer_of result ≡ pus_rule Tc (refusal 10 []) (version_number form.version) h (get_or second.now 0 0) }
{
    ecss::pus_rule(
        PacketType::Tc,
        PusError::PacketTypeTm,
        form.version.raw_value(),
        h,
        space_packet::octet_at(second, 0),
    )
}
