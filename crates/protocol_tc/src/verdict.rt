// The requests on the strict verdict and the splitter, which the crate does not have.
use crate::read;
use protocol_fields::{Pieces, octets, show};
use space_packet::PusError;
use tc_header::TcForm;
use tc_read::PusTcRecord;
use tc_strict::split::{Cursor, Step};

// strict DATA
pub(crate) fn judge(form: TcForm, mut fields: Pieces<'_>, room: &mut [u8]) -> Option<()> {
    let (data, _) = octets(fields.next()?, room)?;
    fields.end()?;
    match tc_strict::judge_in(form, data) {
        Err(e) => show::refusal(e),
        Ok(record) => read::report(b"accept ", record),
    }
    Some(())
}

// split DATA; a form that is refused is the whole answer
pub(crate) fn split(form: TcForm, mut fields: Pieces<'_>, room: &mut [u8]) -> Option<()> {
    let (data, _) = octets(fields.next()?, room)?;
    fields.end()?;
    match form.check() {
        Err(e) => show::refusal(e),
        Ok(()) => {
            packets(form, data);
            show::number(b"end:", data.len() as u64);
        }
    }
    Some(())
}

// A step takes an octet or more, so the turns suffice.
fn packets(form: TcForm, capture: &[u8]) {
    let mut cursor = Cursor::new();
    for _ in 0..capture.len() {
        match cursor.step_in(form, capture) {
            Step::Packet {
                at,
                total,
                verdict,
                next,
            } => {
                place(at, total);
                judged(verdict);
                cursor = next;
            }
            Step::Tail { at, len, next } => {
                place(at, len);
                show::say(b"tail ");
                cursor = next;
            }
            Step::End => return,
        }
    }
}

// AT:LEN:
fn place(at: usize, len: usize) {
    show::list(b"", b':', &[at as u64, len as u64]);
    show::say(b":");
}

// `accept` or the number of the refusal, and a space.
fn judged(verdict: Result<PusTcRecord, PusError>) {
    match verdict {
        Ok(_) => show::say(b"accept "),
        Err(e) => {
            show::number(b"", u64::from(e.number()));
            show::say(b" ");
        }
    }
}
