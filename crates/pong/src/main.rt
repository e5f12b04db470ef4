// The report that answers a ping, with a time of seven octets: written in two ways, and each time judged and taken apart as it was
// written, and refused as a command; then taken from the better of two captures.
#![tactic(auto)]

use ecss::{CreatorConfig, MessageTypeId, PusError, PusPacket};
use space_packet::{Apid, CcsdsPacket, SeqCount, SpHeader};
use stations::Station;
use std::fmt::{self, Display, Formatter};
use std::io;
use tm_header::PusTmSecondaryHeader;
use tm_read::PusTmRecord;
use tm_reserved::PusTmCreatorWithReservedSourceData;
use tm_write::PusTmCreator;

// The octets of a time field, which the mission fixes.
const TIME_LEN: u8 = 7;

// APID 291 and count 5.
fn header() -> Result<SpHeader, PusError> {
    let apid = Apid::new(291)?;
    let count = SeqCount::new(5)?;
    Ok(SpHeader::new_for_unseg_tm(apid, count, 0))
}

// Counter 1, destination 2.
fn second() -> PusTmSecondaryHeader {
    PusTmSecondaryHeader::new(MessageTypeId::new(17, 2), 1, 2)
}

// ---- written

fn written(time: &[u8], data: &[u8]) -> Result<[u8; 24], PusError> {
    let mut packet = [0; 24];
    let config = CreatorConfig::default();
    let creator = PusTmCreator::new(TIME_LEN, header()?, second(), time, data, config)?;
    creator.write_to_slice(time, data, &mut packet)?;
    Ok(packet)
}

// Its data is filled in behind its headers.
fn reserved(time: &[u8], data: &[u8]) -> Result<[u8; 24], PusError> {
    let mut packet = [0; 24];
    let reservation = PusTmCreatorWithReservedSourceData::new(
        TIME_LEN,
        &mut packet,
        header()?,
        second(),
        time,
        data.len(),
        true,
    )?;
    reservation.fill_source_data(data, &mut packet)?;
    reservation.finalize(&mut packet)?;
    Ok(packet)
}

// ---- judged and printed

// Octets as pairs of digits, which are printed at once.
#[derive(Clone, Copy)]
struct Hex<'a>(&'a [u8]);

impl Display for Hex<'_> {
    fn fmt<W: fmt::Write>(&self, f: &mut Formatter<W>) -> fmt::Result {
        for octet in self.0 {
            write!(f, "{octet:02X}")?;
        }
        Ok(())
    }
}

fn print_refusal(rt: &impl Print, refusal: PusError) -> io::Result<()> {
    println!(rt; "refused {}", refusal.number())
}

fn print_record(rt: &impl Print, record: PusTmRecord) -> io::Result<()> {
    println!(rt;
        "accepted: APID {}, count {}, service {}, subtype {}, counter {}, destination {}",
        record.apid().value(),
        record.seq_count().value(),
        record.service_type_id(),
        record.message_subtype_id(),
        record.msg_counter(),
        record.dest_id()
    )
}

fn judge(rt: &impl Print, time_len: u8, packet: &[u8]) -> io::Result<()> {
    match tm_strict::judge(time_len, packet) {
        Ok(record) => {
            print_record(rt, record)?;
            println!(rt; "time {}", Hex(tm_read::timestamp(time_len, packet, true)))?;
            println!(rt;
                "data {}",
                Hex(tm_read::source_data(time_len, packet, true))
            )
        }
        Err(e) => print_refusal(rt, e),
    }
}

fn judge_as_command(rt: &impl Print, packet: &[u8]) -> io::Result<()> {
    print!(rt; "as a command ")?;
    match tc_strict::judge(packet) {
        Ok(_) => println!(rt; "accepted"),
        Err(e) => print_refusal(rt, e),
    }
}

fn show(rt: &impl Print, packet: Result<[u8; 24], PusError>) -> io::Result<()> {
    match packet {
        Ok(octets) => {
            println!(rt; "{}", Hex(&octets))?;
            judge(rt, TIME_LEN, &octets)?;
            judge_as_command(rt, &octets)
        }
        Err(e) => print_refusal(rt, e),
    }
}

// ---- captured by two stations

fn handover(rt: &impl Print, first: &[u8], second: &[u8]) -> io::Result<()> {
    let station = match stations::best_station(TIME_LEN, first, second) {
        Station::First => "first",
        Station::Second => "second",
        Station::Neither(..) => "neither",
    };
    println!(rt;
        "{station} station {}",
        Hex(stations::best(TIME_LEN, first, second))
    )
}

fn main(rt: HostRuntime) -> io::Result<()> {
    let time = [47, 84, 10, 27, 44, 61, 78];
    let data = [10, 11];
    let packet = written(&time, &data);
    show(&rt, packet)?;
    if let Ok(octets) = packet {
        // The first station lost the last octet.
        handover(&rt, &octets[..23], &octets)?;
    }
    show(&rt, reserved(&time, &data))?;
    // A time of another length than the mission's, and a mission's that is too long.
    show(&rt, written(&time[1..], &data))?;
    judge(&rt, 17, &data)
}
