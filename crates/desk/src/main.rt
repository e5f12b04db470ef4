// A ping command at the desk: it is sent, reports on it come, and each time the desk is told what is open. And a parameter command:
// its data are written by their pairs, and read as such.
#![tactic(auto, unfolding(space_packet::specs::Answer::and_then, space_packet::specs::Answer::refuse_if, ecss_write::specs::Write::write_with, ecss_write::specs::Write::write_in))]

use ecss::{CreatorConfig, MessageTypeId, PusError};
use param_value::Value;
use params::{Pair, Params};
use space_packet::SpHeader;
use std::fmt::{self, Display, Formatter};
use std::io;
use tm_header::PusTmSecondaryHeader;
use tm_write::PusTmCreator;
use tracker::Tracker;

// The octets of a time field, which the mission fixes.
const TIME_LEN: u8 = 7;

// ---- what the tracker answers

// The answer to a call, and the requests that are open now, in the order of their sending.
fn told(
    rt: &impl Print,
    call: &str,
    answer: Result<(), PusError>,
    tracker: &Tracker,
) -> io::Result<()> {
    match answer {
        Ok(()) => print!(rt; "{call} taken; open:")?,
        Err(e) => print!(rt; "{call} refused {}; open:", e.number())?,
    }
    for i in 0..tracker.open_count() {
        if let Some(id) = tracker.open_at(i) {
            print!(rt; " {id:08X}")?;
        }
    }
    println!(rt)
}

fn send(rt: &impl Print, tracker: &mut Tracker, command: &[u8]) -> io::Result<()> {
    let answer = tracker.send(command);
    told(rt, "command", answer, tracker)
}

// A report of service 1 with this subtype and these data is written, and comes.
fn report(rt: &impl Print, tracker: &mut Tracker, subtype: u8, data: &[u8]) -> io::Result<()> {
    let answer = written_report(tracker, subtype, data);
    told(rt, "report", answer, tracker)
}

fn written_report(tracker: &mut Tracker, subtype: u8, data: &[u8]) -> Result<(), PusError> {
    let time = [47, 84, 10, 27, 44, 61, 78];
    let second = PusTmSecondaryHeader::new(MessageTypeId::new(1, subtype), 1, 2);
    let config = CreatorConfig::default();
    let creator = PusTmCreator::new(TIME_LEN, SpHeader::default(), second, &time, data, config)?;
    let mut packet = [0; 29];
    let n = creator.write_to_slice(&time, data, &mut packet)?;
    tracker.report(TIME_LEN, &packet[..n])
}

// ---- a parameter command

// An octet and a signed value of three; the third parameter is not set.
fn set_request(list: &[[u16; 3]]) -> Result<[u8; 9], PusError> {
    let mut params = Params::new();
    params.push(Pair {
        id: 7,
        value: Value::Unsigned(200),
    });
    params.push(Pair {
        id: 8,
        value: Value::Signed(-1),
    });
    let mut data = [0; 9];
    params.write_to_slice(list, &mut data)?;
    Ok(data)
}

// Octets as pairs of digits, which are printed at once.
#[derive(Clone, Copy)]
struct Hex<'a>(&'a [u8]);

impl Display for Hex<'_> {
    fn fmt<W: fmt::Write>(&self, f: &mut Formatter<W>) -> fmt::Result {
        for octet in self.0 {
            write!(f, "{octet:02X}")?;
        }
        Ok(())
    }
}

fn print_value(rt: &impl Print, value: Value) -> io::Result<()> {
    match value {
        Value::Unsigned(n) => print!(rt; "{n}"),
        Value::Signed(z) => print!(rt; "{z}"),
        Value::Single(_) => print!(rt; "single"),
        Value::Double(_) => print!(rt; "double"),
        Value::SingleNan(_) | Value::DoubleNan(_) => print!(rt; "NaN"),
    }
}

fn read_request(rt: &impl Print, list: &[[u16; 3]], data: &[u8]) -> io::Result<()> {
    let mut params = Params::new();
    if let Err(e) = params.read(list, data) {
        return println!(rt; "parameters refused {}", e.number());
    }
    print!(rt; "parameters")?;
    for i in 0..params.len() {
        if let Some(pair) = params.get(i) {
            print!(rt; " {}=", pair.id)?;
            print_value(rt, pair.value)?;
        }
    }
    println!(rt)
}

fn set_parameters(rt: &impl Print, command: &[u8]) -> io::Result<()> {
    let list = [[7, 3, 4], [8, 4, 13], [9, 5, 1]];
    match set_request(&list) {
        Ok(data) => {
            println!(rt; "set request {}", Hex(&data))?;
            read_request(rt, &list, tc_read::app_data(command, true))?;
            read_request(rt, &list, &data[..8])
        }
        Err(e) => println!(rt; "set request refused {}", e.number()),
    }
}

fn main(rt: HostRuntime) -> io::Result<()> {
    // It asks for all four reports; its checksum comes last.
    let ping = [
        0x19, 0x23, 0xC0, 0x05, 0x00, 0x06, 0x2F, 0x11, 0x01, 0x00, 0x00, 0x61, 0x6D,
    ];
    // The next ping asks for acceptance alone.
    let next = [
        0x19, 0x23, 0xC0, 0x06, 0x00, 0x06, 0x28, 0x11, 0x01, 0x00, 0x00, 0xCE, 0xCC,
    ];
    let failed = [0x19, 0x23, 0xC0, 0x05, 0, 9];
    let mut tracker = Tracker::new();
    report(&rt, &mut tracker, 1, &ping[..4])?;
    send(&rt, &mut tracker, &ping)?;
    send(&rt, &mut tracker, &ping)?;
    send(&rt, &mut tracker, &next)?;
    report(&rt, &mut tracker, 1, &ping[..4])?;
    report(&rt, &mut tracker, 1, &next[..4])?;
    // A report of failure has a code behind the request.
    report(&rt, &mut tracker, 8, &ping[..4])?;
    report(&rt, &mut tracker, 8, &failed)?;
    send(&rt, &mut tracker, &ping[..12])?;
    // The same pairs as the data of a command of service 20, subtype 3.
    let command = [
        0x19, 0x23, 0xC0, 0x07, 0x00, 0x0F, 0x29, 0x14, 0x03, 0x00, 0x00, 0x02, 0x00, 0x07, 0xC8,
        0x00, 0x08, 0xFF, 0xFF, 0xFF, 0x16, 0x1A,
    ];
    send(&rt, &mut tracker, &command)?;
    set_parameters(&rt, &command)
}
