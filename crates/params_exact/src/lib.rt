// What is asked of the parameter commands, as theorems: specs/ has the words, proofs/Inverse.antt that reading and writing a request
// invert each other, proofs/Whole.antt a command as a whole.
//
// Both are also proved here of the calls themselves: the functions below write a request and read it again, read one and write it again,
// receive a command and send one. They are there for their contracts, and nothing calls them.
#![tactic(auto)]

ghost use Rattle.std.specs.Prelude.{◌≡◌, List, ◌++◌, ℕ, ◌≤◌, length, drop};
ghost use Rattle.space_packet.specs.Answer.{gives, answer_of, outcome};
ghost use Rattle.params.specs.Request.{pairs_of, read_in, record_octets, kept_of};
ghost use Rattle.params.specs.declared.Pair.{Pair};
ghost use Rattle.params_exact.specs.Requests.{request_for, HeldAll};
ghost use Rattle.params_exact.specs.Command.{Received, Sendable, Arrives};

use ecss::frame;
use params::Params;
use space_packet::PusError;
use tc_header::TcForm;
use tc_read::PusTcRecord;
use tc_write::PusTcCreator;

// What was read, and whether it was refused.
#[derive(Clone, Copy)]
struct ParamsRead {
    params: Params,
    result: Result<(), PusError>,
}

// What was read, and what a write of it answers.
#[derive(Clone, Copy)]
struct Rewritten {
    read: ParamsRead,
    written: Result<usize, PusError>,
}

// The verdict on octets, and the pairs that their data are read as.
#[derive(Clone, Copy)]
struct Told {
    verdict: Result<PusTcRecord, PusError>,
    read: ParamsRead,
}

fn read_params(list: &[[u16; 3]], data: &[u8]) -> ParamsRead
    ensures { outcome result.result result.params ≡ read_in list.now «data».now }
{
    let mut params = Params::new();
    let result = params.read(list, data);
    ParamsRead { params, result }
}

// ---- a request

// The pairs of a record, written, are read again as those pairs.
fn again(params: Params, list: &[[u16; 3]], buf: &mut [u8]) -> ParamsRead
    ensures { (o : List ℕ) → record_octets list.now params ≡ gives o → length o ≤ length buf.old
        → outcome result.result result.params ≡ kept_of (gives (pairs_of params)) }
{
    let n = params.write_to_slice(list, buf).unwrap_or(0);
    read_params(list, frame::front(buf, n))
}

// Data that are read, written by their pairs, are those data.
fn copied(list: &[[u16; 3]], data: &[u8], buf: &mut [u8]) -> Rewritten
    ensures { (outcome result.read.result result.read.params ≡ read_in list.now «data».now) × (answer_of result.read.result ≡ gives tt → length «data».now ≤ length buf.old
        → (answer_of result.written ≡ gives (length «data».now))
        × (buf.new ≡ «data».now ++ drop (length «data».now) buf.old)) }
{
    let read = read_params(list, data);
    let written = read.params.write_to_slice(list, buf);
    Rewritten { read, written }
}

// ---- a command

// A command that is received tells its pairs, and nothing else tells any.
fn received(form: TcForm, list: &[[u16; 3]], octets: &[u8]) -> Told
    ensures { Received form list.now octets.now result }
{
    let verdict = tc_strict::judge_in(form, octets);
    let read = read_params(list, tc_read::app_data_in(form, octets, true));
    Told { verdict, read }
}

// The octets of pairs, as the data of a command: the verdict accepts it, and it is read as those pairs.
fn carried(creator: PusTcCreator, list: &[[u16; 3]], data: &[u8], buf: &mut [u8]) -> Told
    ensures { (ps : List Pair) → HeldAll ps → request_for list.now ps ≡ gives «data».now
        → Sendable creator «data».now buf.old → Arrives creator «data».now ps result }
{
    let _ = creator.write_to_slice(data, buf);
    let form = creator.form();
    let verdict = tc_strict::judge_in(form, buf);
    let read = read_params(list, tc_read::app_data_in(form, buf, true));
    Told { verdict, read }
}

// Pairs, written into a lent room and sent from there as the data of a command: the same.
fn sent(
    creator: PusTcCreator,
    params: Params,
    list: &[[u16; 3]],
    room: &mut [u8],
    buf: &mut [u8],
) -> Told
    ensures { (o : List ℕ) → record_octets list.now params ≡ gives o → length o ≤ length room.old
        → Sendable creator o buf.old → Arrives creator o (pairs_of params) result }
{
    let n = params.write_to_slice(list, room).unwrap_or(0);
    carried(creator, list, frame::front(room, n), buf)
}
