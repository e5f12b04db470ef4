// The report of tcverdict: the packets of a capture as the splitter finds them, each with its strict verdict.
#![tactic(auto, using(crate::proofs::Pages::pages), unfolding(crate::specs::Report::two_text, crate::specs::Report::verdict_text, crate::specs::Report::line_of, crate::specs::Report::step_text, crate::specs::Report::body_text, crate::specs::Report::report_text))]

ghost use Rattle.space_packet.specs.Answer.{answer_of};
ghost use Rattle.std.specs.Prelude.{◌≡◌, ◌≤◌, OnErr, OnOk, length, take};
ghost use Rattle.std.specs.Io.KnownBytes.{Appends};
ghost use Rattle.io.specs.Counts.{IsPrefixLen};
ghost use Rattle.text.specs.Page.{page, laid};
ghost use Rattle.tc_strict.specs.Split.{step_answer, walk};
ghost use Rattle.input.specs.Printing.{AppendsPart, Prints, PrintsPart, Rendered};
ghost use Rattle.report.specs.Report.{two_text, verdict_text, step_text, onward_of, lines_of, body_text, report_text, room};
ghost use Rattle.report.specs.Program.{printed};

use ecss::PusPacket;
use input::Failed;
use space_packet::PusError;
use std::io;
use std::io::{Read, Write};
use tc_read::PusTcRecord;
use tc_strict::split::{Cursor, Step};

// ---- the report, laid into a buffer: each call goes on at `at`, and answers the place after what it laid. So it is, and not by
// `write!`, since of a `write!` that fails a proof knows nothing.

fn put_two(out: &mut [u8], at: usize, a: u64, b: u64) -> usize
    ensures { page out.new result ≡ laid (page out.old at) (two_text a b) }
{
    let at = text::put_number(out, at, a);
    let at = text::put_text(out, at, b" ");
    text::put_number(out, at, b)
}

fn put_verdict(out: &mut [u8], at: usize, verdict: Result<PusTcRecord, PusError>) -> usize
    ensures { page out.new result ≡ laid (page out.old at) (verdict_text (answer_of verdict)) }
{
    match verdict {
        Ok(record) => {
            let at = text::put_text(out, at, b" accept ");
            let service = u64::from(record.service_type_id());
            let subtype = u64::from(record.message_subtype_id());
            put_two(out, at, service, subtype)
        }
        Err(error) => {
            let at = text::put_text(out, at, b" refuse ");
            text::put_number(out, at, u64::from(error.number()))
        }
    }
}

fn put_step(out: &mut [u8], at: usize, step: Step) -> usize
    ensures { page out.new result ≡ laid (page out.old at) (step_text (step_answer step)) }
{
    match step {
        Step::Packet {
            at: from,
            total,
            verdict,
            ..
        } => {
            let at = put_two(out, at, from as u64, total as u64);
            let at = put_verdict(out, at, verdict);
            text::put_text(out, at, b"\n")
        }
        Step::Tail { at: from, len, .. } => {
            let at = put_two(out, at, from as u64, len as u64);
            text::put_text(out, at, b" tail\n")
        }
        Step::End => at,
    }
}

// Where the walk goes on: behind the piece, whatever the verdict; nowhere at the capture's end.
fn onward(step: Step) -> Option<Cursor>
    ensures { result ≡ onward_of (step_answer step) }
{
    match step {
        Step::Packet { next, .. } | Step::Tail { next, .. } => Some(next),
        Step::End => None,
    }
}

// A line for each piece.
fn put_lines(out: &mut [u8], mut at: usize, capture: &[u8]) -> usize
    ensures { page out.new result ≡ laid (page out.old at) (lines_of (walk capture.now)) }
{
    let mut cursor = Some(Cursor::new());
    while let Some(here) = cursor {
        let step = here.step(capture);
        at = put_step(out, at, step);
        cursor = onward(step);
    }
    at
}

fn put_body(out: &mut [u8], at: usize, capture: &[u8]) -> usize
    ensures { page out.new result ≡ laid (page out.old at) (body_text capture.now) }
{
    if capture.len() > 65536 {
        return text::put_text(out, at, b"too long\n");
    }
    let at = put_lines(out, at, capture);
    let at = text::put_text(out, at, b"end ");
    let at = text::put_number(out, at, capture.len() as u64);
    text::put_text(out, at, b"\n")
}

// Puts the report of a capture at the start of out, and answers how many characters it has; what has no room is left out.
pub fn render(capture: &[u8], out: &mut [u8]) -> usize
    ensures { Rendered room (report_text capture.now) out.old result out.new }
{
    let at = text::put_text(out, 0, b"tcverdict 1\n");
    put_body(out, at, capture)
}

// ---- what is printed

// Room for every report, as `room` has it.
const ROOM: usize = 12 + 4 * 65536 + 13 + 10;

// Puts what is printed of an input at the start of out, and answers how many characters it has.
#[tactic(auto, using(crate::proofs::Pages::shown), unfolding(input::specs::Printing::printed_by))]
fn answer(input: Result<usize, Failed>, buf: &[u8], out: &mut [u8]) -> usize
    requires { room ≤ length out.old }
    ensures prefix_len { IsPrefixLen result out.new }
    ensures out_after { take result out.new ≡ printed input buf.now }
{
    match input {
        Ok(n) => render(text::part(buf, 0, n), out),
        Err(_) => text::put_text(out, 0, b"tcverdict 1\ncannot be read\n"),
    }
}

// Judges what an input holds, up to 65,536 octets of it, and prints the report.
pub fn run<R: Read, W: Write>(reader: &mut R, writer: &mut W) -> io::Result<()>
    ensures ok { OnOk result (Prints printed (W.contents writer.old) (W.contents writer.new)) }
    ensures err { OnErr result (PrintsPart printed (W.contents writer.old) (W.contents writer.new)) }
{
    let mut buf = [0u8; 65537];
    let input = input::read_input(reader, &mut buf);
    let mut out = [0u8; ROOM];
    let n = answer(input, &buf, &mut out);
    input::put_all(writer, &out[..n])
}
