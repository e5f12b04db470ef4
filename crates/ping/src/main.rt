// A ping command: built in four ways, written, and each time judged as it was written; and once in PUS A, without a source ID.
#![tactic(auto)]

use ecss::{CreatorConfig, MessageTypeId, PusError, PusPacket};
use space_packet::{Apid, CcsdsPacket, SeqCount, SpHeader};
use std::fmt::{self, Display, Formatter};
use std::io;
use tc_header::{AckFlags, PusTcSecondaryHeader, TcForm};
use tc_read::PusTcRecord;
use tc_reserved::PusTcCreatorWithReservedAppData;
use tc_write::PusTcCreator;

const PING: MessageTypeId = MessageTypeId {
    type_id: 17,
    subtype_id: 1,
};

// APID 291 and count 5.
fn header() -> Result<SpHeader, PusError> {
    let apid = Apid::new(291)?;
    let count = SeqCount::new(5)?;
    Ok(SpHeader::new_for_unseg_tc(apid, count, 0))
}

fn second() -> PusTcSecondaryHeader {
    PusTcSecondaryHeader::new_simple(PING)
}

// ---- built and written

fn by_new(data: &[u8]) -> Result<PusTcCreator, PusError> {
    PusTcCreator::new(header()?, second(), data, CreatorConfig::default())
}

fn by_new_simple() -> Result<PusTcCreator, PusError> {
    PusTcCreator::new_simple(header()?, PING, &[], CreatorConfig::default())
}

fn by_builder() -> Result<PusTcCreator, PusError> {
    let mut builder = PusTcCreator::builder();
    builder.with_message_type_id(PING);
    builder.with_apid(Apid::new(291)?)?;
    builder.with_sequence_count(SeqCount::new(5)?)?;
    builder.with_ack_flags(AckFlags::ALL)?;
    builder.build(&[])
}

fn written(creator: PusTcCreator) -> Result<[u8; 13], PusError> {
    let mut packet = [0; 13];
    creator.write_to_slice(&[], &mut packet)?;
    Ok(packet)
}

// Built in the buffer that it is written to.
fn reserved() -> Result<[u8; 13], PusError> {
    let mut packet = [0; 13];
    let reservation = PusTcCreatorWithReservedAppData::new(
        &mut packet,
        header()?,
        second(),
        0,
        true,
    )?;
    reservation.finalize(&mut packet)?;
    Ok(packet)
}

// In another form, of which a ping has 11 octets.
fn in_form(form: TcForm) -> Result<[u8; 11], PusError> {
    let mut packet = [0; 11];
    let creator = PusTcCreator::new_simple_in(
        form,
        header()?,
        PING,
        &[],
        CreatorConfig::default(),
    )?;
    creator.write_to_slice(&[], &mut packet)?;
    Ok(packet)
}

// Without its checksum, for which there still must be room.
fn write_no_crc(buf: &mut [u8]) -> Result<usize, PusError> {
    by_new(&[])?.write_to_slice_no_crc(&[], buf)
}

// The length field of a packet with this data.
fn length_field(data: &[u8]) -> Result<usize, PusError> {
    let creator = by_new(data)?;
    Ok(usize::from(creator.data_len()))
}

// ---- judged and printed

// Octets as pairs of digits, which are printed at once.
#[derive(Clone, Copy)]
struct Hex<'a>(&'a [u8]);

impl Display for Hex<'_> {
    fn fmt<W: fmt::Write>(&self, f: &mut Formatter<W>) -> fmt::Result {
        for octet in self.0 {
            write!(f, "{octet:02X}")?;
        }
        Ok(())
    }
}

fn print_refusal(rt: &impl Print, refusal: PusError) -> io::Result<()> {
    println!(rt; "refused {}", refusal.number())
}

fn print_number(rt: &impl Print, name: &str, number: Result<usize, PusError>) -> io::Result<()> {
    match number {
        Ok(n) => println!(rt; "{name} {n}"),
        Err(e) => print_refusal(rt, e),
    }
}

fn print_record(rt: &impl Print, record: PusTcRecord) -> io::Result<()> {
    print!(rt;
        "accepted: APID {}, count {}, service {}, subtype {}",
        record.apid().value(),
        record.seq_count().value(),
        record.service_type_id(),
        record.message_subtype_id()
    )
}

fn judge(rt: &impl Print, packet: &[u8]) -> io::Result<()> {
    match tc_strict::judge(packet) {
        Ok(record) => {
            print_record(rt, record)?;
            println!(rt;
                ", octets of data {}",
                tc_read::app_data(packet, true).len()
            )
        }
        Err(e) => print_refusal(rt, e),
    }
}

fn judge_in(rt: &impl Print, form: TcForm, packet: &[u8]) -> io::Result<()> {
    match tc_strict::judge_in(form, packet) {
        Ok(record) => {
            print_record(rt, record)?;
            println!(rt)
        }
        Err(e) => print_refusal(rt, e),
    }
}

fn show(rt: &impl Print, packet: Result<[u8; 13], PusError>) -> io::Result<()> {
    match packet {
        Ok(octets) => {
            println!(rt; "{}", Hex(&octets))?;
            judge(rt, &octets)
        }
        Err(e) => print_refusal(rt, e),
    }
}

fn show_in(rt: &impl Print, form: TcForm) -> io::Result<()> {
    match in_form(form) {
        Ok(octets) => {
            println!(rt; "{}", Hex(&octets))?;
            judge_in(rt, form, &octets)
        }
        Err(e) => print_refusal(rt, e),
    }
}

fn main(rt: HostRuntime) -> io::Result<()> {
    show(&rt, by_new(&[]).and_then(written))?;
    show(&rt, by_new_simple().and_then(written))?;
    show(&rt, by_builder().and_then(written))?;
    show(&rt, reserved())?;
    print_number(&rt, "octets", write_no_crc(&mut [0; 12]))?;
    let mut packet = [255; 13];
    print_number(&rt, "octets", write_no_crc(&mut packet))?;
    println!(rt; "{}", Hex(&packet))?;
    judge(&rt, &packet)?;
    // The largest packet, and one octet more.
    print_number(&rt, "length field", length_field(&[0; 65529]))?;
    print_number(&rt, "length field", length_field(&[0; 65530]))?;
    show_in(&rt, TcForm::pus_a(0))?;
    show_in(&rt, TcForm::pus_a(9))
}
