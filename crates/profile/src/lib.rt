// A small-satellite profile of PUS-C telecommands: its verdict, and a builder that can produce nothing else. At most 1,024 octets,
// unsegmented, APID below 64, services 1, 3, 5, 8, 17 and 20 only, acceptance always requested, empty data for service 17.
#![tactic(auto, unfolding(space_packet::specs::Answer::and_then, space_packet::specs::Answer::set_if, space_packet::specs::Answer::refuse_if))]

ghost use Rattle.std.specs.Prelude.{◌≡◌, length};
ghost use Rattle.space_packet.specs.Answer.{gives, ◌then◌, set_if, answer_of, outcome};
ghost use Rattle.space_packet.specs.Fields.{apid_check, count_check};
ghost use Rattle.space_packet.specs.Header.{psc_from};
ghost use Rattle.ecss.specs.Version.{message_type_of};
ghost use Rattle.tc_header.specs.Header.{ack_check};
ghost use Rattle.tc_write.specs.Creator.{own_checksum};
ghost use Rattle.profile.specs.Rules.{is_service, rules, profile_rule, profile_of};
ghost use Rattle.profile.specs.Builder.{header_for, sec_for, creator_for, built_for, header_with, length_with, CommandWrote, builder_of, default_builder, with_apid, with_psc, with_type, with_source, with_ack};

use ecss::{CreatorConfig, MessageTypeId, PusError, PusPacket};
use space_packet::{Apid, CcsdsPacket, PacketId, PacketSequenceControl, SeqCount, SpHeader};
use tc_header::{AckFlags, PusTcSecondaryHeader};
use tc_read::PusTcRecord;
use tc_write::PusTcCreator;

// ---- the rules

// The most octets in total.
const MOST_OCTETS: usize = 1024;

// Those of a command with no data.
const FEWEST_OCTETS: usize = 13;

// The sequence flags of a packet that is no segment.
const UNSEGMENTED: u8 = 3;

const APID_LIMIT: u16 = 64;

const TEST_SERVICE: u8 = 17;

fn is_service(n: u8) -> bool
    ensures { result ≡ is_service n }
{
    matches!(n, 1 | 3 | 5 | 8 | 17 | 20)
}

// The first rule that is broken: 25 to 30.
fn rules(
    total: usize,
    flags: u8,
    apid: u16,
    service: u8,
    asks_acceptance: bool,
) -> Result<(), PusError>
    ensures { answer_of result ≡ rules total flags apid service asks_acceptance }
{
    let long = MOST_OCTETS < total;
    let segment = flags != UNSEGMENTED;
    let high = APID_LIMIT <= apid;
    let taken = is_service(service);
    let test_with_data = (service == TEST_SERVICE) & (FEWEST_OCTETS < total);
    if long {
        return Err(PusError::ProfileLength);
    }
    if segment {
        return Err(PusError::ProfileSegmented);
    }
    if high {
        return Err(PusError::ProfileApid);
    }
    if !taken {
        return Err(PusError::ProfileService);
    }
    if !asks_acceptance {
        return Err(PusError::ProfileAcceptance);
    }
    if test_with_data {
        return Err(PusError::ProfileData);
    }
    Ok(())
}

// The same of a command's headers; its total is the one that they state.
fn rule(h: SpHeader, x: PusTcSecondaryHeader) -> Result<(), PusError>
    ensures { answer_of result ≡ profile_rule h x }
{
    rules(
        h.packet_len(),
        h.sequence_flags().raw_value(),
        h.apid().value(),
        x.service_type_id(),
        x.ack_flags().acceptance(),
    )
}

// ---- the verdict

// The PUS-C strict verdict with no spares, then 25 to 30.
#[tactic(auto, unfolding(space_packet::specs::Answer::and_then, crate::specs::Rules::profile_of))]
pub fn judge(s: &[u8]) -> Result<PusTcRecord, PusError>
    ensures { answer_of result ≡ profile_of s.now }
{
    let record = tc_strict::judge(s)?;
    rule(record.sp_header(), record.sec_header())?;
    Ok(record)
}

// ---- a command

// A command of the profile, but for its application data: what a mission chooses. All else is written as the profile has it.
#[derive(Clone, Copy, PartialEq, Eq)]
pub struct ProfileTc {
    apid: Apid,
    psc: PacketSequenceControl,
    message_type_id: MessageTypeId,
    source_id: u16,
    ack_flags: AckFlags,
}

// The creator, where its headers are within the profile.
fn within(creator: PusTcCreator) -> Result<PusTcCreator, PusError>
    ensures { answer_of result ≡ (profile_rule creator.sp_header creator.sec_header then λ _. gives creator) }
{
    rule(creator.sp_header(), creator.sec_header())?;
    Ok(creator)
}

impl ProfileTc {
    // A telecommand's header; its length is set for the data.
    fn first_header(self) -> SpHeader
        ensures { result ≡ header_for self }
    {
        SpHeader::new(PacketId::new_for_tc(true, self.apid), self.psc, 0)
    }

    // The creator of this command with this data; 7, 6, then 25 to 30. It is not handed out, since a creator can be edited.
    #[tactic(auto, unfolding(space_packet::specs::Answer::and_then, crate::specs::Builder::creator_for))]
    fn creator(self, app_data: &[u8]) -> Result<PusTcCreator, PusError>
        ensures { answer_of result ≡ creator_for self (length app_data.now) }
    {
        let made = PusTcCreator::new(
            self.first_header(),
            self.sec_header(),
            app_data,
            CreatorConfig::default(),
        )?;
        within(made)
    }

    pub fn sec_header(self) -> PusTcSecondaryHeader
        ensures { result ≡ sec_for self }
    {
        PusTcSecondaryHeader::new(self.message_type_id, self.ack_flags, self.source_id)
    }

    // The primary header with the length for this data; 7, 6, 25 to 30.
    pub fn sp_header(self, app_data: &[u8]) -> Result<SpHeader, PusError>
        ensures { answer_of result ≡ header_with self (length app_data.now) }
    {
        Ok(self.creator(app_data)?.sp_header())
    }

    // The length of the packet, its checksum included; 7, 6, 25 to 30.
    pub fn len_written(self, app_data: &[u8]) -> Result<usize, PusError>
        ensures { answer_of result ≡ length_with self (length app_data.now) }
    {
        Ok(self.sp_header(app_data)?.packet_len())
    }

    // The checksum over the headers and the data; 7, 6, 25 to 30.
    pub fn calc_own_crc16(self, app_data: &[u8]) -> Result<u16, PusError>
        ensures { answer_of result ≡ (creator_for self (length app_data.now) then λ c. own_checksum c app_data.now) }
    {
        self.creator(app_data)?.calc_own_crc16(app_data)
    }

    // Writes the packet over the first octets of the buffer and answers how many; 7, 6, 25 to 30, 1. The data need not be those of
    // the build: the length is set for them, and the rules are asked of them.
    pub fn write_to_slice(self, app_data: &[u8], buf: &mut [u8]) -> Result<usize, PusError>
        ensures { CommandWrote self app_data.now buf.old result buf.new }
    {
        self.creator(app_data)?.write_to_slice(app_data, buf)
    }
}

// ---- the builder

// A command in the making. The data is handed to build.
#[derive(Clone, Copy, PartialEq, Eq)]
pub struct ProfileBuilder(ProfileTc);

impl ProfileBuilder {
    // No service is named yet, and 0 is none of the profile's.
    pub fn new() -> ProfileBuilder
        ensures { result ≡ default_builder }
    {
        let header = SpHeader::default();
        ProfileBuilder(ProfileTc {
            apid: header.apid(),
            psc: header.psc(),
            message_type_id: MessageTypeId::new(0, 0),
            source_id: 0,
            ack_flags: AckFlags::default()
                .with_acceptance(true)
                .with_completion(true),
        })
    }

    // What each setter hands in is refused with 7 where it is over its width, and the builder then stays as it was.

    // Takes the APID; the type and the flag are always a telecommand's.
    pub fn with_packet_id(&mut self, packet_id: PacketId) -> Result<(), PusError>
        ensures { outcome result self.new ≡ set_if (apid_check packet_id.apid) self.old (with_apid self.old packet_id.apid) }
    {
        self.with_apid(packet_id.apid)
    }

    pub fn with_packet_sequence_control(
        &mut self,
        psc: PacketSequenceControl,
    ) -> Result<(), PusError>
        ensures { outcome result self.new ≡ set_if (count_check psc.seq_count) self.old (with_psc self.old psc) }
    {
        psc.seq_count.check()?;
        self.0.psc = psc;
        Ok(())
    }

    pub fn with_sequence_count(&mut self, seq_count: SeqCount) -> Result<(), PusError>
        ensures { outcome result self.new ≡ set_if (count_check seq_count) self.old (with_psc self.old (psc_from self.old.0.psc.seq_flags seq_count)) }
    {
        seq_count.check()?;
        self.0.psc.seq_count = seq_count;
        Ok(())
    }

    pub fn with_message_type_id(&mut self, message_type: MessageTypeId)
        ensures { self.new ≡ with_type self.old message_type }
    {
        self.0.message_type_id = message_type;
    }

    pub fn with_service_type_id(&mut self, service: u8)
        ensures { self.new ≡ with_type self.old (message_type_of service self.old.0.message_type_id.subtype_id) }
    {
        self.0.message_type_id.type_id = service;
    }

    pub fn with_message_subtype_id(&mut self, subtype_id: u8)
        ensures { self.new ≡ with_type self.old (message_type_of self.old.0.message_type_id.type_id subtype_id) }
    {
        self.0.message_type_id.subtype_id = subtype_id;
    }

    pub fn with_source_id(&mut self, source_id: u16)
        ensures { self.new ≡ with_source self.old source_id }
    {
        self.0.source_id = source_id;
    }

    pub fn with_ack_flags(&mut self, ack_flags: AckFlags) -> Result<(), PusError>
        ensures { outcome result self.new ≡ set_if (ack_check ack_flags) self.old (with_ack self.old ack_flags) }
    {
        ack_flags.check()?;
        self.0.ack_flags = ack_flags;
        Ok(())
    }

    pub fn with_apid(&mut self, apid: Apid) -> Result<(), PusError>
        ensures { outcome result self.new ≡ set_if (apid_check apid) self.old (with_apid self.old apid) }
    {
        apid.check()?;
        self.0.apid = apid;
        Ok(())
    }

    // The command, where with this data it is within the profile; 7, 6, then 25 to 30.
    pub fn build(self, app_data: &[u8]) -> Result<ProfileTc, PusError>
        ensures { answer_of result ≡ built_for self.0 (length app_data.now) }
    {
        self.0.creator(app_data)?;
        Ok(self.0)
    }
}
