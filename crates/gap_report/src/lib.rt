// The report of tcgaps: the gaps of a capture, one in a line, and its octets that were accepted, refused and left over.
#![tactic(auto)]

ghost use Rattle.space_packet.specs.Answer.{answer_of};
ghost use Rattle.std.specs.Prelude.{◌≡◌, ◌≤◌, OnErr, OnOk, length, take};
ghost use Rattle.std.specs.Io.KnownBytes.{Appends};
ghost use Rattle.io.specs.Counts.{IsPrefixLen};
ghost use Rattle.text.specs.Page.{page, laid};
ghost use Rattle.gaps.specs.Gaps.{gaps_of};
ghost use Rattle.input.specs.Printing.{AppendsPart, Prints, PrintsPart, Rendered};
ghost use Rattle.gap_report.specs.Report.{row_text, rows_text, total_text, end_text, gaps_text, body_text, report_text, room};
ghost use Rattle.gap_report.specs.Program.{printed};

use gaps::Totals;
use input::Failed;
use space_packet::PusError;
use std::io;
use std::io::{Read, Write};

// ---- the report, laid into a buffer: each call goes on at `at`, and answers the place after what it laid. So it is, and not by
// `write!`, since of a `write!` that fails a proof knows nothing.

fn put_row(out: &mut [u8], at: usize, row: [u16; 3]) -> usize
    ensures { page out.new result ≡ laid (page out.old at) (row_text row) }
{
    let at = text::put_number(out, at, row[0] as u64);
    let at = text::put_text(out, at, b" ");
    let at = text::put_number(out, at, row[1] as u64);
    let at = text::put_text(out, at, b" ");
    let at = text::put_number(out, at, row[2] as u64);
    text::put_text(out, at, b"\n")
}

// A line for each row.
fn put_rows(out: &mut [u8], mut at: usize, rows: &[[u16; 3]]) -> usize
    ensures { page out.new result ≡ laid (page out.old at) (rows_text rows.now) }
{
    for row in rows {
        at = put_row(out, at, *row);
    }
    at
}

fn put_total(out: &mut [u8], at: usize, name: &[u8], n: usize) -> usize
    ensures { page out.new result ≡ laid (page out.old at) (total_text name.now n) }
{
    let at = text::put_text(out, at, name);
    text::put_number(out, at, n as u64)
}

fn put_end(out: &mut [u8], at: usize, end: Result<Totals, PusError>) -> usize
    ensures { page out.new result ≡ laid (page out.old at) (end_text (answer_of end)) }
{
    match end {
        Ok(totals) => {
            let at = put_total(out, at, b"accepted ", totals.accepted);
            let at = put_total(out, at, b" refused ", totals.refused);
            let at = put_total(out, at, b" tail ", totals.tail);
            text::put_text(out, at, b"\n")
        }
        Err(error) => {
            let at = text::put_number(out, at, error.number() as u64);
            text::put_text(out, at, b"\n")
        }
    }
}

// The list's rows and the end of the walk; the list is lent for it.
fn put_gaps(out: &mut [u8], at: usize, capture: &[u8], list: &mut [[u16; 3]]) -> usize
    ensures { page out.new result ≡ laid (page out.old at) (gaps_text (gaps_of (length list.old) capture.now)) }
{
    let found = gaps::list_gaps(capture, list);
    let at = put_rows(out, at, &list[..found.listed]);
    put_end(out, at, found.result)
}

fn put_body(out: &mut [u8], at: usize, capture: &[u8]) -> usize
    ensures { page out.new result ≡ laid (page out.old at) (body_text capture.now) }
{
    if capture.len() > 65536 {
        return text::put_text(out, at, b"too long\n");
    }
    let mut list = [[0; 3]; 5041];
    put_gaps(out, at, capture, &mut list)
}

// Puts the report of a capture at the start of out, and answers how many characters it has; what has no room is left out.
pub fn render(capture: &[u8], out: &mut [u8]) -> usize
    ensures { Rendered room (report_text capture.now) out.old result out.new }
{
    let at = text::put_text(out, 0, b"tcgaps 1\n");
    put_body(out, at, capture)
}

// ---- what is printed

// Room for every report, as `room` has it.
const ROOM: usize = 9 + 2 * 65536 + 40;

// Puts what is printed of an input at the start of out, and answers how many characters it has.
fn answer(input: Result<usize, Failed>, buf: &[u8], out: &mut [u8]) -> usize
    requires { room ≤ length out.old }
    ensures prefix_len { IsPrefixLen result out.new }
    ensures out_after { take result out.new ≡ printed input buf.now }
{
    match input {
        Ok(n) => render(text::part(buf, 0, n), out),
        Err(_) => text::put_text(out, 0, b"tcgaps 1\ncannot be read\n"),
    }
}

// Lists the gaps of what an input holds, up to 65,536 octets of it, and prints the report.
pub fn run<R: Read, W: Write>(reader: &mut R, writer: &mut W) -> io::Result<()>
    ensures ok { OnOk result (Prints printed (W.contents writer.old) (W.contents writer.new)) }
    ensures err { OnErr result (PrintsPart printed (W.contents writer.old) (W.contents writer.new)) }
{
    let mut buf = [0u8; 65537];
    let input = input::read_input(reader, &mut buf);
    let mut out = [0u8; ROOM];
    let n = answer(input, &buf, &mut out);
    input::put_all(writer, &out[..n])
}
