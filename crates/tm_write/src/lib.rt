// Telemetry written, after ECSS-E-ST-70-41C: the creator. The octets of its time and its source data travel beside it. The length of
// the time, which the mission fixes, is handed in once and held; a time of another length is refused with 14, before all others.
#![tactic(auto, unfolding(space_packet::specs::Answer::and_then, space_packet::specs::Answer::set_if, space_packet::specs::Answer::refuse_if))]

ghost use Rattle.std.specs.Prelude.{◌≡◌, length};
ghost use Rattle.space_packet.specs.Answer.{set_if, answer_of, outcome};
ghost use Rattle.space_packet.specs.Fields.{apid_check, count_check, id_with_apid};
ghost use Rattle.space_packet.specs.Header.{with_id, with_psc, psc_from, header_check};
ghost use Rattle.ecss.specs.declared.PusVersion.TheVariants.{PusC};
ghost use Rattle.ecss_write.specs.Write.{asks_answer};
ghost use Rattle.ecss_write.specs.Writer.{asked_of, PutWrote};
ghost use Rattle.tm_header.specs.Header.{timed, sec_from, status_check, with_status};
ghost use Rattle.tm_write.specs.Report.{report_by};
ghost use Rattle.tm_write.specs.Creator.{header_with, new_of, with_header, with_sec, updated, length_of, own_checksum, checksum_of, PacketWrote, ContentWrote, same_creator};

use ecss::{CreatorConfig, MessageTypeId, PusError, PusPacket, PusVersion, frame};
use ecss_write::packet;
use ecss_write::packet::Asks;
use space_packet::{Apid, CcsdsPacket, PacketType, SeqCount, SequenceFlags, SpHeader};
pub use tm_header::{MAX_SEC_HEADER_LEN, MAX_TIME_LEN, PusTmSecondaryHeader};

// What writers ask of the time and the secondary header: 14 before all others, 7, and 3 after the room.
pub fn asks(time_len: u8, sec_header: PusTmSecondaryHeader, time: &[u8]) -> Asks
    ensures { asks_answer result ≡ asked_of (report_by time_len) (timed sec_header time.now) }
{
    Asks {
        first: tm_header::check_time(time_len, time.len()),
        fields: sec_header.check_fields(),
        version: sec_header.check_version(),
    }
}

// ---- the creator

// A telemetry packet of the mission's time length, but for its time and its source data.
#[derive(Clone, Copy, PartialEq, Eq)]
pub struct PusTmCreator {
    sp_header: SpHeader,
    sec_header: PusTmSecondaryHeader,
    has_checksum: bool,
    time_len: u8,
}

impl PusTmCreator {
    // Sets the type and the secondary header flag, and where the configuration says so the length; 14, 7, 6.
    pub fn new(
        time_len: u8,
        sp_header: SpHeader,
        sec_header: PusTmSecondaryHeader,
        time: &[u8],
        source_data: &[u8],
        packet_config: CreatorConfig,
    ) -> Result<PusTmCreator, PusError>
        ensures { answer_of result ≡ new_of time_len sp_header sec_header time.now (length source_data.now) packet_config }
    {
        let sp_header = packet::made(
            asks(time_len, sec_header, time),
            sp_header,
            PacketType::Tm,
            tm_header::min_len_without_source_data(time_len),
            source_data.len(),
            packet_config,
        )?;
        Ok(PusTmCreator {
            sp_header,
            sec_header,
            has_checksum: packet_config.has_checksum,
            time_len,
        })
    }

    // Message counter 0, destination 0, and time reference status 0.
    pub fn new_simple(
        time_len: u8,
        sp_header: SpHeader,
        message_type_id: MessageTypeId,
        time: &[u8],
        source_data: &[u8],
        packet_config: CreatorConfig,
    ) -> Result<PusTmCreator, PusError>
        ensures { answer_of result ≡ new_of time_len sp_header (sec_from PusC 0 message_type_id 0 0) time.now (length source_data.now) packet_config }
    {
        PusTmCreator::new(
            time_len,
            sp_header,
            PusTmSecondaryHeader::new_simple(message_type_id),
            time,
            source_data,
            packet_config,
        )
    }

    pub fn new_no_source_data(
        time_len: u8,
        sp_header: SpHeader,
        sec_header: PusTmSecondaryHeader,
        time: &[u8],
        packet_config: CreatorConfig,
    ) -> Result<PusTmCreator, PusError>
        ensures { answer_of result ≡ new_of time_len sp_header sec_header time.now 0 packet_config }
    {
        PusTmCreator::new(time_len, sp_header, sec_header, time, &[], packet_config)
    }

    // ---- reading

    pub fn time_len(self) -> u8
        ensures { result ≡ self.time_len }
    {
        self.time_len
    }

    pub fn sec_header(self) -> PusTmSecondaryHeader
        ensures { result ≡ self.sec_header }
    {
        self.sec_header
    }

    pub fn has_checksum(self) -> bool
        ensures { result ≡ self.has_checksum }
    {
        self.has_checksum
    }

    pub fn sc_time_ref_status(self) -> u8
        ensures { result ≡ self.sec_header.sc_time_ref_status }
    {
        self.sec_header.sc_time_ref_status
    }

    pub fn msg_counter(self) -> u16
        ensures { result ≡ self.sec_header.msg_counter }
    {
        self.sec_header.msg_counter
    }

    pub fn dest_id(self) -> u16
        ensures { result ≡ self.sec_header.dest_id }
    {
        self.sec_header.dest_id
    }

    // ---- edits, which are written as they stand; what is over its width is refused with 7, and the creator then stays as it was

    // Replaces the primary header.
    pub fn set_sp_header(&mut self, sp_header: SpHeader) -> Result<(), PusError>
        ensures { outcome result self.new ≡ set_if (header_check sp_header) self.old (with_header self.old sp_header) }
    {
        sp_header.check()?;
        self.sp_header = sp_header;
        Ok(())
    }

    // Replaces the secondary header; a version other than C is taken, and no write takes it.
    pub fn set_sec_header(&mut self, sec_header: PusTmSecondaryHeader) -> Result<(), PusError>
        ensures { outcome result self.new ≡ set_if (status_check sec_header.sc_time_ref_status) self.old (with_sec self.old sec_header) }
    {
        sec_header.check_fields()?;
        self.sec_header = sec_header;
        Ok(())
    }

    pub fn set_apid(&mut self, apid: Apid) -> Result<(), PusError>
        ensures { outcome result self.new ≡ set_if (apid_check apid) self.old (with_header self.old (with_id self.old.sp_header (id_with_apid self.old.sp_header.packet_id apid))) }
    {
        self.sp_header.set_apid(apid)
    }

    pub fn set_seq_count(&mut self, seq_count: SeqCount) -> Result<(), PusError>
        ensures { outcome result self.new ≡ set_if (count_check seq_count) self.old (with_header self.old (with_psc self.old.sp_header (psc_from self.old.sp_header.psc.seq_flags seq_count))) }
    {
        self.sp_header.set_seq_count(seq_count)
    }

    pub fn set_seq_flags(&mut self, seq_flag: SequenceFlags)
        ensures { self.new ≡ with_header self.old (with_psc self.old.sp_header (psc_from seq_flag self.old.sp_header.psc.seq_count)) }
    {
        self.sp_header.set_seq_flags(seq_flag);
    }

    // 7 where it is over four bits.
    pub fn set_sc_time_ref_status(&mut self, sc_time_ref_status: u8) -> Result<(), PusError>
        ensures { outcome result self.new ≡ set_if (status_check sc_time_ref_status) self.old (with_sec self.old (with_status self.old.sec_header sc_time_ref_status)) }
    {
        self.sec_header.set_sc_time_ref_status(sc_time_ref_status)
    }

    pub fn set_msg_counter(&mut self, msg_counter: u16)
        ensures { self.new ≡ with_sec self.old (sec_from self.old.sec_header.pus_version self.old.sec_header.sc_time_ref_status self.old.sec_header.message_type_id msg_counter self.old.sec_header.dest_id) }
    {
        self.sec_header.msg_counter = msg_counter;
    }

    pub fn set_dest_id(&mut self, dest_id: u16)
        ensures { self.new ≡ with_sec self.old (sec_from self.old.sec_header.pus_version self.old.sec_header.sc_time_ref_status self.old.sec_header.message_type_id self.old.sec_header.msg_counter dest_id) }
    {
        self.sec_header.dest_id = dest_id;
    }

    // Sets the length field afresh for this data; 14, 7, 6.
    pub fn update_ccsds_data_len(&mut self, time: &[u8], source_data: &[u8]) -> Result<(), PusError>
        ensures { outcome result self.new ≡ updated self.old time.now (length source_data.now) }
    {
        packet::length_afresh(
            asks(self.time_len, self.sec_header, time),
            &mut self.sp_header,
            tm_header::min_len_without_source_data(self.time_len),
            source_data.len(),
            self.has_checksum,
        )
    }

    // Whether the time length, the headers, the time, the data and the choice of checksum are the same.
    #[tactic(auto, using(crate::proofs::Same::compared))]
    pub fn eq(
        self,
        time: &[u8],
        source_data: &[u8],
        other: PusTmCreator,
        other_time: &[u8],
        other_source_data: &[u8],
    ) -> bool
        ensures { result ≡ same_creator self time.now source_data.now other other_time.now other_source_data.now }
    {
        self == other && time == other_time && source_data == other_source_data
    }

    // ---- octets

    // The length of the packet, its checksum included; 14, 6.
    pub fn len_written(self, time: &[u8], source_data: &[u8]) -> Result<usize, PusError>
        ensures { answer_of result ≡ length_of self time.now (length source_data.now) }
    {
        tm_header::check_time(self.time_len, time.len())?;
        ecss_write::total_of(
            tm_header::min_len_without_source_data(self.time_len),
            source_data.len(),
            self.has_checksum,
        )
    }

    // The checksum over the headers and the data; 14, 7, 3.
    pub fn calc_own_crc16(self, time: &[u8], source_data: &[u8]) -> Result<u16, PusError>
        ensures { answer_of result ≡ own_checksum self time.now source_data.now }
    {
        let mut sec = [0u8; MAX_SEC_HEADER_LEN];
        let _ = self
            .sec_header
            .write_to_slice(self.time_len, time, &mut sec);
        packet::own_checksum(
            asks(self.time_len, self.sec_header, time),
            self.sp_header,
            frame::front(&sec, tm_header::sec_header_len(self.time_len)),
            source_data,
        )
    }

    // None where no checksum is written, and otherwise the packet's own; 14, 7, 3.
    #[tactic(auto, unfolding(space_packet::specs::Answer::and_then, ecss_write::specs::Write::checksum_with))]
    pub fn checksum(self, time: &[u8], source_data: &[u8]) -> Result<Option<u16>, PusError>
        ensures { answer_of result ≡ checksum_of self time.now source_data.now }
    {
        tm_header::check_time(self.time_len, time.len())?;
        if !self.has_checksum {
            return Ok(None);
        }
        packet::checksum_of(self.calc_own_crc16(time, source_data))
    }

    // Writes the packet over the first octets of the buffer and answers how many; 14, 7, 6, 1, 3. No write takes a table for
    // its checksum, whatever its name: without one is faster at every length of a packet.
    pub fn write_to_slice(
        self,
        time: &[u8],
        source_data: &[u8],
        buf: &mut [u8],
    ) -> Result<usize, PusError>
        ensures { PacketWrote self time.now source_data.now buf.old result buf.new }
    {
        self.put(time, source_data, false, buf)
    }

    pub fn write_to_slice_crc_no_table(
        self,
        time: &[u8],
        source_data: &[u8],
        buf: &mut [u8],
    ) -> Result<usize, PusError>
        ensures { PacketWrote self time.now source_data.now buf.old result buf.new }
    {
        self.write_to_slice(time, source_data, buf)
    }

    // Leaves the two octets of an enabled checksum as they are, for which there still must be room.
    pub fn write_to_slice_no_crc(
        self,
        time: &[u8],
        source_data: &[u8],
        buf: &mut [u8],
    ) -> Result<usize, PusError>
        ensures { ContentWrote self time.now source_data.now buf.old result buf.new }
    {
        self.put(time, source_data, true, buf)
    }

    // Both writes: the secondary header is encoded, and the rest is the same for every kind.
    fn put(
        self,
        time: &[u8],
        source_data: &[u8],
        bare: bool,
        buf: &mut [u8],
    ) -> Result<usize, PusError>
        ensures { PutWrote (report_by self.time_len) bare self.sp_header (header_with self time.now) self.has_checksum source_data.now buf.old result buf.new }
    {
        let mut sec = [0u8; MAX_SEC_HEADER_LEN];
        let _ = self
            .sec_header
            .write_to_slice(self.time_len, time, &mut sec);
        packet::put(
            asks(self.time_len, self.sec_header, time),
            self.sp_header,
            frame::front(&sec, tm_header::sec_header_len(self.time_len)),
            source_data,
            self.has_checksum,
            bare,
            buf,
        )
    }
}

impl CcsdsPacket for PusTmCreator {
    ghost primary = { λ c. c.sp_header };

    fn sp_header(self) -> SpHeader {
        self.sp_header
    }
}

impl PusPacket for PusTmCreator {
    ghost message_type = { λ c. c.sec_header.message_type_id };

    ghost version = { λ c. c.sec_header.pus_version };

    fn message_type_id(self) -> MessageTypeId {
        self.sec_header.message_type_id
    }

    fn pus_version(self) -> PusVersion {
        self.sec_header.pus_version
    }
}
