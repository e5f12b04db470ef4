// Telecommands written, after ECSS-E-ST-70-41C and, for PUS A, ECSS-E-70-41A: the creator and the builder. Their application data
// travel beside them. The calls named after the Rust have PUS C; their siblings, which end in `_in`, take a form.
#![tactic(auto, unfolding(space_packet::specs::Answer::and_then, space_packet::specs::Answer::set_if))]

ghost use Rattle.std.specs.Prelude.{◌≡◌, true, length};
ghost use Rattle.space_packet.specs.Answer.{gives, ◌then◌, set_if, answer_of, outcome};
ghost use Rattle.space_packet.specs.Fields.{apid_check, count_check, id_with_apid};
ghost use Rattle.space_packet.specs.Header.{with_id, with_psc, psc_from, id_from, header_check};
ghost use Rattle.space_packet.specs.declared.PacketType.TheVariants.{Tc};
ghost use Rattle.ecss.specs.Kind.{start_of};
ghost use Rattle.ecss.specs.Version.{message_type_of};
ghost use Rattle.ecss.specs.declared.PusVersion.TheVariants.{PusC};
ghost use Rattle.ecss_write.specs.Write.{machine_total, asks_answer};
ghost use Rattle.ecss_write.specs.Writer.{asked_of, PutWrote};
ghost use Rattle.tc_header.specs.Form.{form_check, source_len, source_check};
ghost use Rattle.tc_header.specs.Header.{ack_check, ack_of, sec_from, fields_check, tc};
ghost use Rattle.tc_write.specs.Command.{command_in};
ghost use Rattle.tc_write.specs.Creator.{creator_in, new_in, new_of, with_header, with_sec, updated, own_checksum, checksum_of, PacketWrote, ContentWrote, same_creator};
ghost use Rattle.tc_write.specs.Builder.{builder_of, builder_in, default_builder, with_flags};

use ecss::{CreatorConfig, MessageTypeId, PusError, PusPacket, PusVersion, frame};
use ecss_write::packet;
use ecss_write::packet::Asks;
use space_packet::{
    Apid, CcsdsPacket, PacketId, PacketSequenceControl, PacketType, SeqCount, SequenceFlags,
    SpHeader,
};
pub use tc_header::{
    ACK_ALL, AckFlags, PUC_TC_SECONDARY_HEADER_LEN, PUS_TC_MIN_LEN_WITHOUT_APP_DATA,
    PusTcSecondaryHeader, TcForm,
};

// What writers ask of the form and the secondary header: 32 and 19 before all others, 7, and 3 after the room.
pub fn asks(form: TcForm, sec_header: PusTcSecondaryHeader) -> Asks
    ensures { asks_answer result ≡ asked_of (command_in form) sec_header }
{
    Asks {
        first: form.check(),
        fields: sec_header.check_fields_in(form),
        version: sec_header.check_version_in(form),
    }
}

// Source 0, and the form's version.
fn simple(form: TcForm, message_type_id: MessageTypeId, ack_flags: AckFlags) -> PusTcSecondaryHeader
    ensures { result ≡ sec_from message_type_id ack_flags 0 form.version }
{
    PusTcSecondaryHeader {
        message_type_id,
        source_id: 0,
        ack_flags,
        version: form.version(),
    }
}

// ---- the creator

// A telecommand of its form, but for its application data.
#[derive(Clone, Copy, PartialEq, Eq)]
pub struct PusTcCreator {
    sp_header: SpHeader,
    sec_header: PusTcSecondaryHeader,
    has_checksum: bool,
    form: TcForm,
}

impl PusTcCreator {
    // Sets the type and the secondary header flag, and where the configuration says so the length; 7, 6.
    pub fn new(
        sp_header: SpHeader,
        sec_header: PusTcSecondaryHeader,
        app_data: &[u8],
        packet_config: CreatorConfig,
    ) -> Result<PusTcCreator, PusError>
        ensures { answer_of result ≡ new_of sp_header sec_header (length app_data.now) packet_config }
    {
        PusTcCreator::new_in(
            TcForm::PUS_C,
            sp_header,
            sec_header,
            app_data,
            packet_config,
        )
    }

    // 32, 19, 7, 6.
    pub fn new_in(
        form: TcForm,
        sp_header: SpHeader,
        sec_header: PusTcSecondaryHeader,
        app_data: &[u8],
        packet_config: CreatorConfig,
    ) -> Result<PusTcCreator, PusError>
        ensures { answer_of result ≡ new_in form sp_header sec_header (length app_data.now) packet_config }
    {
        let sp_header = packet::made(
            asks(form, sec_header),
            sp_header,
            PacketType::Tc,
            form.min_len_without_app_data(),
            app_data.len(),
            packet_config,
        )?;
        Ok(PusTcCreator {
            sp_header,
            sec_header,
            has_checksum: packet_config.has_checksum,
            form,
        })
    }

    // All four acknowledgements, and source 0.
    pub fn new_simple(
        sph: SpHeader,
        message_type_id: MessageTypeId,
        app_data: &[u8],
        packet_config: CreatorConfig,
    ) -> Result<PusTcCreator, PusError>
        ensures { answer_of result ≡ new_of sph (sec_from message_type_id (ack_of 15) 0 PusC) (length app_data.now) packet_config }
    {
        PusTcCreator::new_simple_in(TcForm::PUS_C, sph, message_type_id, app_data, packet_config)
    }

    pub fn new_simple_in(
        form: TcForm,
        sph: SpHeader,
        message_type_id: MessageTypeId,
        app_data: &[u8],
        packet_config: CreatorConfig,
    ) -> Result<PusTcCreator, PusError>
        ensures { answer_of result ≡ new_in form sph (sec_from message_type_id (ack_of 15) 0 form.version) (length app_data.now) packet_config }
    {
        PusTcCreator::new_in(
            form,
            sph,
            simple(form, message_type_id, ACK_ALL),
            app_data,
            packet_config,
        )
    }

    pub fn new_no_app_data(
        sp_header: SpHeader,
        sec_header: PusTcSecondaryHeader,
        packet_config: CreatorConfig,
    ) -> Result<PusTcCreator, PusError>
        ensures { answer_of result ≡ new_of sp_header sec_header 0 packet_config }
    {
        PusTcCreator::new_no_app_data_in(TcForm::PUS_C, sp_header, sec_header, packet_config)
    }

    pub fn new_no_app_data_in(
        form: TcForm,
        sp_header: SpHeader,
        sec_header: PusTcSecondaryHeader,
        packet_config: CreatorConfig,
    ) -> Result<PusTcCreator, PusError>
        ensures { answer_of result ≡ new_in form sp_header sec_header 0 packet_config }
    {
        PusTcCreator::new_in(form, sp_header, sec_header, &[], packet_config)
    }

    pub fn builder() -> PusTcBuilder
        ensures { result ≡ default_builder }
    {
        PusTcBuilder::new()
    }

    pub fn builder_in(form: TcForm) -> Result<PusTcBuilder, PusError>
        ensures { answer_of result ≡ (form_check form then λ _. gives (builder_in form)) }
    {
        PusTcBuilder::new_in(form)
    }

    // ---- reading

    pub fn form(self) -> TcForm
        ensures { result ≡ self.form }
    {
        self.form
    }

    pub fn sec_header(self) -> PusTcSecondaryHeader
        ensures { result ≡ self.sec_header }
    {
        self.sec_header
    }

    pub fn has_checksum(self) -> bool
        ensures { result ≡ self.has_checksum }
    {
        self.has_checksum
    }

    pub fn ack_flags(self) -> AckFlags
        ensures { result ≡ self.sec_header.ack_flags }
    {
        self.sec_header.ack_flags
    }

    pub fn source_id(self) -> u16
        ensures { result ≡ self.sec_header.source_id }
    {
        self.sec_header.source_id
    }

    // ---- edits, which are written as they stand; what is over its width is refused with 7

    // Replaces the primary header.
    pub fn set_sp_header(&mut self, sp_header: SpHeader) -> Result<(), PusError>
        ensures { outcome result self.new ≡ set_if (header_check sp_header) self.old (with_header self.old sp_header) }
    {
        sp_header.check()?;
        self.sp_header = sp_header;
        Ok(())
    }

    // Replaces the secondary header; a version other than the form's is taken, and no write takes it.
    pub fn set_sec_header(&mut self, sec_header: PusTcSecondaryHeader) -> Result<(), PusError>
        ensures { outcome result self.new ≡ set_if (fields_check self.old.form sec_header) self.old (with_sec self.old sec_header) }
    {
        sec_header.check_fields_in(self.form)?;
        self.sec_header = sec_header;
        Ok(())
    }

    pub fn set_apid(&mut self, apid: Apid) -> Result<(), PusError>
        ensures { outcome result self.new ≡ set_if (apid_check apid) self.old (with_header self.old (with_id self.old.sp_header (id_with_apid self.old.sp_header.packet_id apid))) }
    {
        self.sp_header.set_apid(apid)
    }

    pub fn set_seq_count(&mut self, seq_count: SeqCount) -> Result<(), PusError>
        ensures { outcome result self.new ≡ set_if (count_check seq_count) self.old (with_header self.old (with_psc self.old.sp_header (psc_from self.old.sp_header.psc.seq_flags seq_count))) }
    {
        self.sp_header.set_seq_count(seq_count)
    }

    pub fn set_seq_flags(&mut self, seq_flag: SequenceFlags)
        ensures { self.new ≡ with_header self.old (with_psc self.old.sp_header (psc_from seq_flag self.old.sp_header.psc.seq_count)) }
    {
        self.sp_header.set_seq_flags(seq_flag);
    }

    pub fn set_ack_flags(&mut self, ack_flags: AckFlags) -> Result<(), PusError>
        ensures { outcome result self.new ≡ set_if (ack_check ack_flags) self.old (with_sec self.old (sec_from self.old.sec_header.message_type_id ack_flags self.old.sec_header.source_id self.old.sec_header.version)) }
    {
        ack_flags.check()?;
        self.sec_header.ack_flags = ack_flags;
        Ok(())
    }

    // 7 where it is over the form's width; PUS C takes every one.
    pub fn set_source_id(&mut self, source_id: u16) -> Result<(), PusError>
        ensures { outcome result self.new ≡ set_if (source_check (source_len self.old.form) source_id) self.old (with_sec self.old (sec_from self.old.sec_header.message_type_id self.old.sec_header.ack_flags source_id self.old.sec_header.version)) }
    {
        self.form.check_source_id(source_id)?;
        self.sec_header.source_id = source_id;
        Ok(())
    }

    // Sets the length field afresh for this data; 32, 19, 7, 6.
    pub fn update_ccsds_data_len(&mut self, app_data: &[u8]) -> Result<(), PusError>
        ensures { outcome result self.new ≡ updated self.old (length app_data.now) }
    {
        packet::length_afresh(
            asks(self.form, self.sec_header),
            &mut self.sp_header,
            self.form.min_len_without_app_data(),
            app_data.len(),
            self.has_checksum,
        )
    }

    // Whether the form, the headers, the data and the choice of checksum are the same.
    #[tactic(auto, using(crate::proofs::Same::compared))]
    pub fn eq(self, app_data: &[u8], other: PusTcCreator, other_app_data: &[u8]) -> bool
        ensures { result ≡ same_creator self app_data.now other other_app_data.now }
    {
        self == other && app_data == other_app_data
    }

    // ---- octets

    // The length of the packet, its checksum included; 32, 19, 6.
    pub fn len_written(self, app_data: &[u8]) -> Result<usize, PusError>
        ensures { answer_of result ≡ (form_check self.form then λ _. machine_total (start_of (tc self.form)) self.has_checksum (length app_data.now)) }
    {
        self.form.check()?;
        ecss_write::total_of(
            self.form.min_len_without_app_data(),
            app_data.len(),
            self.has_checksum,
        )
    }

    // The checksum over the headers and the data; 32, 19, 7, 3.
    pub fn calc_own_crc16(self, app_data: &[u8]) -> Result<u16, PusError>
        ensures { answer_of result ≡ own_checksum self app_data.now }
    {
        let mut sec = [0u8; TcForm::MAX_SEC_HEADER_LEN];
        let _ = self.sec_header.write_to_slice_in(self.form, &mut sec);
        packet::own_checksum(
            asks(self.form, self.sec_header),
            self.sp_header,
            frame::front(&sec, self.form.sec_header_len()),
            app_data,
        )
    }

    pub fn calc_own_crc16_no_table(self, app_data: &[u8]) -> Result<u16, PusError>
        ensures { answer_of result ≡ own_checksum self app_data.now }
    {
        self.calc_own_crc16(app_data)
    }

    // As the trait PusPacket of the Rust names it: none where no checksum is written, and otherwise the packet's own; 32, 19, 7, 3.
    #[tactic(auto, unfolding(space_packet::specs::Answer::and_then, ecss_write::specs::Write::checksum_with))]
    pub fn checksum(self, app_data: &[u8]) -> Result<Option<u16>, PusError>
        ensures { answer_of result ≡ checksum_of self app_data.now }
    {
        if !self.has_checksum {
            return Ok(None);
        }
        Ok(Some(self.calc_own_crc16(app_data)?))
    }

    // Writes the packet over the first octets of the buffer and answers how many; 32, 19, 7, 6, 1, 3. No write takes a table for
    // its checksum, whatever its name: without one is faster at every length of a packet.
    pub fn write_to_slice(self, app_data: &[u8], buf: &mut [u8]) -> Result<usize, PusError>
        ensures { PacketWrote self app_data.now buf.old result buf.new }
    {
        self.put(app_data, false, buf)
    }

    pub fn write_to_slice_crc_no_table(
        self,
        app_data: &[u8],
        buf: &mut [u8],
    ) -> Result<usize, PusError>
        ensures { PacketWrote self app_data.now buf.old result buf.new }
    {
        self.write_to_slice(app_data, buf)
    }

    // Leaves the two octets of an enabled checksum as they are, for which there still must be room.
    pub fn write_to_slice_no_crc(self, app_data: &[u8], buf: &mut [u8]) -> Result<usize, PusError>
        ensures { ContentWrote self app_data.now buf.old result buf.new }
    {
        self.put(app_data, true, buf)
    }

    // Both writes: the secondary header is encoded, and the rest is the same for every kind.
    fn put(self, app_data: &[u8], bare: bool, buf: &mut [u8]) -> Result<usize, PusError>
        ensures { PutWrote (command_in self.form) bare self.sp_header self.sec_header self.has_checksum app_data.now buf.old result buf.new }
    {
        let mut sec = [0u8; TcForm::MAX_SEC_HEADER_LEN];
        let _ = self.sec_header.write_to_slice_in(self.form, &mut sec);
        packet::put(
            asks(self.form, self.sec_header),
            self.sp_header,
            frame::front(&sec, self.form.sec_header_len()),
            app_data,
            self.has_checksum,
            bare,
            buf,
        )
    }

    // As the trait WritablePusPacket of the Rust names them.
    pub fn write_to_slice_no_checksum(
        self,
        app_data: &[u8],
        buf: &mut [u8],
    ) -> Result<usize, PusError>
        ensures { ContentWrote self app_data.now buf.old result buf.new }
    {
        self.write_to_slice_no_crc(app_data, buf)
    }

    pub fn write_to_slice_checksum_no_table(
        self,
        app_data: &[u8],
        buf: &mut [u8],
    ) -> Result<usize, PusError>
        ensures { PacketWrote self app_data.now buf.old result buf.new }
    {
        self.write_to_slice(app_data, buf)
    }
}

impl CcsdsPacket for PusTcCreator {
    ghost primary = { λ t. t.sp_header };

    fn sp_header(self) -> SpHeader {
        self.sp_header
    }
}

impl PusPacket for PusTcCreator {
    ghost message_type = { λ t. t.sec_header.message_type_id };

    ghost version = { λ t. t.sec_header.version };

    fn message_type_id(self) -> MessageTypeId {
        self.sec_header.message_type_id
    }

    fn pus_version(self) -> PusVersion {
        self.sec_header.version
    }
}

// ---- the builder

// A creator in the making. The data is handed to build.
#[derive(Clone, Copy, PartialEq, Eq)]
pub struct PusTcBuilder(PusTcCreator);

impl Default for PusTcBuilder {
    ghost is_default = { λ b. b ≡ default_builder };

    fn default() -> PusTcBuilder {
        PusTcBuilder::new()
    }
}

impl PusTcBuilder {
    // Acceptance and completion are asked for, where the Rust asks for all four.
    pub fn new() -> PusTcBuilder
        ensures { result ≡ default_builder }
    {
        PusTcBuilder::defaults(TcForm::PUS_C)
    }

    // 32, 19.
    pub fn new_in(form: TcForm) -> Result<PusTcBuilder, PusError>
        ensures { answer_of result ≡ (form_check form then λ _. gives (builder_in form)) }
    {
        form.check()?;
        Ok(PusTcBuilder::defaults(form))
    }

    // All four reports of each command would flood a downlink.
    fn defaults(form: TcForm) -> PusTcBuilder
        ensures { result ≡ builder_in form }
    {
        let ack_flags = AckFlags::default()
            .with_acceptance(true)
            .with_completion(true);
        PusTcBuilder(PusTcCreator {
            sp_header: packet::as_type(SpHeader::default(), PacketType::Tc),
            sec_header: simple(form, MessageTypeId::new(0, 0), ack_flags),
            has_checksum: true,
            form,
        })
    }

    // Takes the flag and the APID; the type stays a telecommand's.
    pub fn with_packet_id(&mut self, packet_id: PacketId) -> Result<(), PusError>
        ensures { outcome result self.new ≡ set_if (apid_check packet_id.apid) self.old (builder_of (with_header self.old.0 (with_id self.old.0.sp_header (id_from Tc packet_id.sec_header_flag packet_id.apid)))) }
    {
        packet_id.apid.check()?;
        self.0.sp_header.packet_id = PacketId::new_for_tc(
            packet_id.sec_header_flag,
            packet_id.apid,
        );
        Ok(())
    }

    pub fn with_packet_sequence_control(
        &mut self,
        psc: PacketSequenceControl,
    ) -> Result<(), PusError>
        ensures { outcome result self.new ≡ set_if (count_check psc.seq_count) self.old (builder_of (with_header self.old.0 (with_psc self.old.0.sp_header psc))) }
    {
        psc.seq_count.check()?;
        self.0.sp_header.psc = psc;
        Ok(())
    }

    pub fn with_sequence_count(&mut self, seq_count: SeqCount) -> Result<(), PusError>
        ensures { outcome result self.new ≡ set_if (count_check seq_count) self.old (builder_of (with_header self.old.0 (with_psc self.old.0.sp_header (psc_from self.old.0.sp_header.psc.seq_flags seq_count)))) }
    {
        self.0.set_seq_count(seq_count)
    }

    pub fn with_message_type_id(&mut self, message_type: MessageTypeId)
        ensures { self.new ≡ builder_of (with_sec self.old.0 (sec_from message_type self.old.0.sec_header.ack_flags self.old.0.sec_header.source_id self.old.0.sec_header.version)) }
    {
        self.0.sec_header.message_type_id = message_type;
    }

    pub fn with_service_type_id(&mut self, service: u8)
        ensures { self.new ≡ builder_of (with_sec self.old.0 (sec_from (message_type_of service self.old.0.sec_header.message_type_id.subtype_id) self.old.0.sec_header.ack_flags self.old.0.sec_header.source_id self.old.0.sec_header.version)) }
    {
        self.0.sec_header.message_type_id.type_id = service;
    }

    pub fn with_message_subtype_id(&mut self, subtype_id: u8)
        ensures { self.new ≡ builder_of (with_sec self.old.0 (sec_from (message_type_of self.old.0.sec_header.message_type_id.type_id subtype_id) self.old.0.sec_header.ack_flags self.old.0.sec_header.source_id self.old.0.sec_header.version)) }
    {
        self.0.sec_header.message_type_id.subtype_id = subtype_id;
    }

    // 7 where it is over the form's width; PUS C takes every one.
    pub fn with_source_id(&mut self, source_id: u16) -> Result<(), PusError>
        ensures { outcome result self.new ≡ set_if (source_check (source_len self.old.0.form) source_id) self.old (builder_of (with_sec self.old.0 (sec_from self.old.0.sec_header.message_type_id self.old.0.sec_header.ack_flags source_id self.old.0.sec_header.version))) }
    {
        self.0.set_source_id(source_id)
    }

    pub fn with_ack_flags(&mut self, ack_flags: AckFlags) -> Result<(), PusError>
        ensures { outcome result self.new ≡ with_flags self.old ack_flags }
    {
        self.0.set_ack_flags(ack_flags)
    }

    pub fn with_apid(&mut self, apid: Apid) -> Result<(), PusError>
        ensures { outcome result self.new ≡ set_if (apid_check apid) self.old (builder_of (with_header self.old.0 (with_id self.old.0.sp_header (id_with_apid self.old.0.sp_header.packet_id apid)))) }
    {
        self.0.set_apid(apid)
    }

    pub fn with_checksum(&mut self, has_checksum: bool)
        ensures { self.new ≡ builder_of (creator_in self.old.0.form self.old.0.sp_header self.old.0.sec_header has_checksum) }
    {
        self.0.has_checksum = has_checksum;
    }

    // The creator of this data, with its length set; 32, 19, 7, 6.
    pub fn build(self, app_data: &[u8]) -> Result<PusTcCreator, PusError>
        ensures { answer_of result ≡ new_in self.0.form self.0.sp_header self.0.sec_header (length app_data.now) (record { set_ccsds_len = true; has_checksum = self.0.has_checksum }) }
    {
        PusTcCreator::new_in(
            self.0.form,
            self.0.sp_header,
            self.0.sec_header,
            app_data,
            CreatorConfig {
                set_ccsds_len: true,
                has_checksum: self.0.has_checksum,
            },
        )
    }
}
