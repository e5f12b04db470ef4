// Telecommands read, after ECSS-E-ST-70-41C and, for PUS A, ECSS-E-70-41A: the record of what octets hold, and the parts of them
// that are handed out without a copy. The calls named after the Rust read PUS C with no spare octets; their siblings, which end in
// `_in`, take a form.
#![tactic(auto)]

ghost use Rattle.space_packet.specs.Answer.{answer_of};
ghost use Rattle.std.specs.Prelude.{◌≡◌, false, Ok};
ghost use Rattle.space_packet.specs.Header.{packet_len};
ghost use Rattle.space_packet.specs.Part.{beyond};
ghost use Rattle.ecss.specs.Frame.{Framed, has_crc};
ghost use Rattle.tc_header.specs.Form.{form_c, form_check};
ghost use Rattle.tc_header.specs.Header.{tc};
ghost use Rattle.tc_read.specs.Read.{start_in, record_in, read_in, read_of, checked_in, checked_read, app_data_in, app_data_of, app_data_at, raw_data_in, raw_data_of};

use ecss::{MessageTypeId, PusError, PusPacket, PusVersion, frame};
use space_packet::{CcsdsPacket, SpHeader};
use tc_header::{AckFlags, PusTcSecondaryHeader, TcForm};

// What a reader reports.
#[derive(Clone, Copy, PartialEq, Eq)]
pub struct PusTcRecord {
    pub sp_header: SpHeader,
    pub sec_header: PusTcSecondaryHeader,
    // The application data: from the octet `start` up to `end`.
    pub start: usize,
    pub end: usize,
    // The octets of the whole packet.
    pub total: usize,
    pub crc16: Option<u16>,
}

impl PusTcRecord {
    // The checksum is taken and compared: reads the packet that octets begin with; 2, 4.
    pub fn new(slice: &[u8]) -> Result<PusTcRecord, PusError>
        ensures { answer_of result ≡ checked_read slice.now }
    {
        PusTcRecord::new_in(TcForm::PUS_C, slice)
    }

    #[tactic(auto, using(crate::proofs::Records::framed), unfolding(space_packet::specs::Answer::and_then, crate::specs::Read::checked_in))]
    pub fn new_in(form: TcForm, slice: &[u8]) -> Result<PusTcRecord, PusError>
        ensures { answer_of result ≡ checked_in form slice.now }
    {
        let start = form.min_len_without_app_data();
        let total = frame::checked_after(form.check(), slice, start)?;
        PusTcRecord::of(form, slice, total, true)
    }

    pub fn new_checksum_no_table(slice: &[u8]) -> Result<PusTcRecord, PusError>
        ensures { answer_of result ≡ checked_read slice.now }
    {
        PusTcRecord::new(slice)
    }

    // No checksum is expected; 2.
    pub fn new_no_checksum(slice: &[u8]) -> Result<PusTcRecord, PusError>
        ensures { answer_of result ≡ read_of slice.now false }
    {
        PusTcRecord::new_no_checksum_verification(slice, false)
    }

    pub fn new_no_checksum_in(form: TcForm, slice: &[u8]) -> Result<PusTcRecord, PusError>
        ensures { answer_of result ≡ read_in form slice.now false }
    {
        PusTcRecord::new_no_checksum_verification_in(form, slice, false)
    }

    // A checksum is taken where there is one, and not compared; 2.
    pub fn new_no_checksum_verification(
        slice: &[u8],
        has_checksum: bool,
    ) -> Result<PusTcRecord, PusError>
        ensures { answer_of result ≡ read_of slice.now has_checksum }
    {
        PusTcRecord::new_no_checksum_verification_in(TcForm::PUS_C, slice, has_checksum)
    }

    #[tactic(auto, using(crate::proofs::Records::framed), unfolding(space_packet::specs::Answer::and_then, crate::specs::Read::read_in))]
    pub fn new_no_checksum_verification_in(
        form: TcForm,
        slice: &[u8],
        has_checksum: bool,
    ) -> Result<PusTcRecord, PusError>
        ensures { answer_of result ≡ read_in form slice.now has_checksum }
    {
        let start = form.min_len_without_app_data();
        let total = frame::frame_after(form.check(), slice, start, has_checksum)?;
        PusTcRecord::of(form, slice, total, has_checksum)
    }

    // The record of a packet of `total` octets.
    fn of(
        form: TcForm,
        slice: &[u8],
        total: usize,
        has_checksum: bool,
    ) -> Result<PusTcRecord, PusError>
        requires { Framed (form_check form) (start_in form) has_checksum slice.now total }
        ensures { result ≡ Ok (record_in form slice.now has_checksum total) }
    {
        Ok(PusTcRecord {
            sp_header: SpHeader::from_be_bytes(slice)?,
            sec_header: PusTcSecondaryHeader::from_be_bytes_in(form, form.sec_header_part(slice))?,
            start: form.min_len_without_app_data(),
            end: total - frame::trailer_len(has_checksum),
            total,
            crc16: frame::crc_taken(slice, total, has_checksum),
        })
    }

    // ---- reading

    // The total that the length field states.
    pub fn len_packed(self) -> usize
        ensures { result ≡ packet_len self.sp_header }
    {
        self.sp_header.packet_len()
    }

    pub fn sec_header(self) -> PusTcSecondaryHeader
        ensures { result ≡ self.sec_header }
    {
        self.sec_header
    }

    // The checksum, where it was taken.
    pub fn crc16(self) -> Option<u16>
        ensures { result ≡ self.crc16 }
    {
        self.crc16
    }

    // The same, as the trait PusPacket of the Rust names it.
    pub fn checksum(self) -> Option<u16>
        ensures { result ≡ self.crc16 }
    {
        self.crc16
    }

    pub fn has_checksum(self) -> bool
        ensures { result ≡ has_crc self.crc16 }
    {
        self.crc16.is_some()
    }

    pub fn source_id(self) -> u16
        ensures { result ≡ self.sec_header.source_id }
    {
        self.sec_header.source_id
    }

    pub fn ack_flags(self) -> AckFlags
        ensures { result ≡ self.sec_header.ack_flags }
    {
        self.sec_header.ack_flags
    }
}

impl CcsdsPacket for PusTcRecord {
    ghost primary = { λ r. r.sp_header };

    fn sp_header(self) -> SpHeader {
        self.sp_header
    }
}

impl PusPacket for PusTcRecord {
    ghost message_type = { λ r. r.sec_header.message_type_id };

    ghost version = { λ r. r.sec_header.version };

    fn message_type_id(self) -> MessageTypeId {
        self.sec_header.message_type_id
    }

    fn pus_version(self) -> PusVersion {
        self.sec_header.version
    }
}

// ---- parts: each call takes the octets and the choice of checksum, and reads anew

// The application data; the empty part where the read is refused.
pub fn app_data(slice: &[u8], has_checksum: bool) -> &[u8]
    ensures result_value { result.now ≡ app_data_of slice.now has_checksum }
    ensures ref_ptr_value { result.ref_ptr ≡ beyond (app_data_at form_c slice.now has_checksum) slice.entry.ref_ptr }
{
    app_data_in(TcForm::PUS_C, slice, has_checksum)
}

pub fn app_data_in(form: TcForm, slice: &[u8], has_checksum: bool) -> &[u8]
    ensures result_value { result.now ≡ app_data_in form slice.now has_checksum }
    ensures ref_ptr_value { result.ref_ptr ≡ beyond (app_data_at form slice.now has_checksum) slice.entry.ref_ptr }
{
    frame::data_part(
        form.check(),
        slice,
        form.min_len_without_app_data(),
        has_checksum,
    )
}

// The whole packet; the empty part where the read is refused.
pub fn raw_data(slice: &[u8], has_checksum: bool) -> &[u8]
    ensures result_value { result.now ≡ raw_data_of slice.now has_checksum }
    ensures ref_ptr_value { result.ref_ptr ≡ slice.entry.ref_ptr }
{
    raw_data_in(TcForm::PUS_C, slice, has_checksum)
}

pub fn raw_data_in(form: TcForm, slice: &[u8], has_checksum: bool) -> &[u8]
    ensures result_value { result.now ≡ raw_data_in form slice.now has_checksum }
    ensures ref_ptr_value { result.ref_ptr ≡ slice.entry.ref_ptr }
{
    frame::raw_part(
        form.check(),
        slice,
        form.min_len_without_app_data(),
        has_checksum,
    )
}
