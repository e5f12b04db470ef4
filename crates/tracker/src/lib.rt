// The tracker of open commands: which of those sent are still open, by the reports of service 1 that have come.
#![tactic(auto, using(crate::proofs::Checks::sent, crate::proofs::Entries::held), unfolding(space_packet::specs::Answer::and_then, space_packet::specs::Answer::set_if, space_packet::specs::Answer::refuse_if, crate::specs::Reports::ends, crate::specs::Reports::report_from, crate::specs::Reports::report_in, crate::specs::Refusals::report_check, crate::specs::Refusals::open_check, crate::specs::Refusals::send_check, crate::specs::Open::report_to, crate::specs::Open::opened, crate::specs::Open::send_of))]

ghost use Rattle.std.specs.Prelude.{◌≡◌, [], ◌∷◌, ◌++◌, ◌<◌, ◌≤◌, length};
ghost use Rattle.space_packet.specs.Answer.{set_if, outcome};
ghost use Rattle.tracker.specs.Reports.{request_of, ends, counted, all_come, report_length, is_report, report_from};
ghost use Rattle.tracker.specs.Refusals.{open_check};
ghost use Rattle.tracker.specs.Open.{entry_of, noted, closes, left_of, left, new_tracker, entries_of, open_of, holding, is_open, request_at, opened, send_of, report_to, report_of};

use ecss::MessageTypeId;
use space_packet::PusError;

// How many commands can be open.
const MAX_OPEN: usize = 32;

// A command that is open: its request ID, its acknowledgement bits, and the kinds of report that have come.
#[derive(Clone, Copy, PartialEq, Eq)]
pub struct Entry {
    id: u32,
    asked: u8,
    acceptance: bool,
    start: bool,
    progress: bool,
}

// The open commands are the first `count` entries, in the order of their sending: an array and a count, as there is no heap and a tracker
// is copied. What stands behind them is left over, and part of `holding`; so no `==` is derived, which would compare that too.
#[derive(Clone, Copy)]
pub struct Tracker {
    entries: [Entry; MAX_OPEN],
    count: usize,
}

// ---- commands and reports

// The request ID: the first four octets, of a command as of a report's data; of fewer octets, those missing count as 0.
pub fn request_of(s: &[u8]) -> u32
    ensures { result ≡ request_of s.now }
{
    space_packet::word_at(s, 0) as u32 * 65536 + space_packet::word_at(s, 2) as u32
}

// Completion, and a failure of acceptance or start, close a command whatever it asked for.
fn ends(subtype: u8) -> bool
    ensures { result ≡ ends subtype }
{
    matches!(subtype, 2 | 4 | 7 | 8)
}

// 1 where a kind has come and was asked for.
fn counted(come: bool, asked: u8, weight: u8) -> u32
    requires { 0 < weight }
    ensures value { result ≡ counted come asked weight }
    ensures most { result ≤ 1 }
{
    u32::from(come && asked / weight % 2 == 1)
}

// The octets of a report's data.
fn report_length(subtype: u8) -> usize
    ensures { result ≡ report_length subtype }
{
    match subtype {
        5 => 5,
        6 => 7,
        _ if subtype % 2 == 1 => 4,
        _ => 6,
    }
}

// A report of service 1, with just the data of its subtype.
fn is_report(message: MessageTypeId, data: &[u8]) -> bool
    ensures { result ≡ is_report message.type_id message.subtype_id «data».now }
{
    message.type_id == 1
        && (1..=8).contains(&message.subtype_id)
        && data.len() == report_length(message.subtype_id)
}

impl Entry {
    // A command that was sent, before any report on it.
    fn new(id: u32, asked: u8) -> Entry
        ensures { result ≡ entry_of id asked }
    {
        Entry {
            id,
            asked,
            acceptance: false,
            start: false,
            progress: false,
        }
    }

    // Notes the kind of a report that has come.
    fn note(&mut self, subtype: u8)
        ensures { self.new ≡ noted subtype self.old }
    {
        self.acceptance |= matches!(subtype, 1 | 2);
        self.start |= matches!(subtype, 3 | 4);
        self.progress |= matches!(subtype, 5 | 6);
    }

    // Completion is not among the kinds asked for, and as many have come as were asked for.
    fn all_come(self) -> bool
        ensures { result ≡ all_come self.asked self.acceptance self.start self.progress }
    {
        let come = counted(self.acceptance, self.asked, 8)
            + counted(self.start, self.asked, 4)
            + counted(self.progress, self.asked, 2);
        self.asked % 2 == 0 && come == self.asked.count_ones()
    }

    // A report of this subtype, which has been noted, closes it.
    fn closes(self, subtype: u8) -> bool
        ensures { result ≡ closes subtype self }
    {
        ends(subtype) || self.all_come()
    }
}

impl Default for Tracker {
    ghost is_default = { λ t. t ≡ new_tracker };

    fn default() -> Tracker {
        Tracker::new()
    }
}

impl Tracker {
    // Nothing is open.
    pub fn new() -> Tracker
        ensures { result ≡ new_tracker }
    {
        Tracker {
            entries: [Entry::new(0, 0); MAX_OPEN],
            count: 0,
        }
    }

    // ---- what is open

    // The entries in use: never more than there are places.
    fn open(&self) -> &[Entry]
        ensures { result.now ≡ entries_of self.now }
    {
        &self.entries[..self.count.min(MAX_OPEN)]
    }

    pub fn is_open(&self, id: u32) -> bool
        ensures { result ≡ is_open self.now id }
    {
        self.open().iter().any(|entry| entry.id == id)
    }

    // How many are open.
    pub fn open_count(&self) -> usize
        ensures { result ≡ length (open_of self.now) }
    {
        self.open().len()
    }

    // The open request that was sent as the i-th of them, from 0 on.
    pub fn open_at(&self, i: usize) -> Option<u32>
        ensures { result ≡ request_at (open_of self.now) i }
    {
        self.open().get(i).map(|entry| entry.id)
    }

    // ---- reports

    // One more entry behind those in use.
    fn add(&mut self, entry: Entry)
        requires { length (entries_of self.old) < 32 }
        ensures { self.new ≡ holding self.old (entries_of self.old ++ (entry ∷ [])) }
    {
        self.entries[self.count] = entry;
        self.count += 1;
    }

    // What a report leaves of an entry, behind those in use.
    fn add_left(&mut self, mut entry: Entry, id: u32, subtype: u8)
        requires { length (entries_of self.old) < 32 }
        ensures { self.new ≡ holding self.old (entries_of self.old ++ left_of id subtype entry) }
    {
        if entry.id == id {
            entry.note(subtype);
            if entry.closes(subtype) {
                return;
            }
        }
        self.add(entry);
    }

    // Notes a report: what it closes is gone, and its place is used again.
    fn note(&mut self, id: u32, subtype: u8)
        ensures { self.new ≡ holding self.old (left id subtype (entries_of self.old)) }
    {
        let before = *self;
        self.count = 0;
        for entry in before.open() {
            self.add_left(*entry, id, subtype);
        }
    }

    // Telemetry of this type, with these data; 15, 16.
    fn told(&mut self, message: MessageTypeId, data: &[u8]) -> Result<(), PusError>
        ensures { outcome result self.new ≡ report_to self.old (report_from message.type_id message.subtype_id «data».now) }
    {
        if !is_report(message, data) {
            return Err(PusError::NotAReport);
        }
        let id = request_of(data);
        if !self.is_open(id) {
            return Err(PusError::RequestNotOpen);
        }
        self.note(id, message.subtype_id);
        Ok(())
    }

    // A report on a command that was sent, with a time field of `time_len` octets; 15, 16. Where it is refused, the tracker stays as
    // it was.
    pub fn report(&mut self, time_len: u8, octets: &[u8]) -> Result<(), PusError>
        ensures { outcome result self.new ≡ report_of self.old time_len octets.now }
    {
        let record = tm_strict::judge(time_len, octets).map_err(|_| PusError::NotAReport)?;
        self.told(
            record.sec_header.message_type_id,
            tm_read::source_data(time_len, octets, true),
        )
    }

    // ---- sending

    // A request that was accepted; 17, 18.
    fn enter(&mut self, id: u32, asked: u8) -> Result<(), PusError>
        ensures { outcome result self.new ≡ set_if (open_check (open_of self.old) id asked) self.old (opened self.old id asked) }
    {
        if asked.count_ones() == 0 {
            return Ok(());
        }
        if self.is_open(id) {
            return Err(PusError::RequestOpen);
        }
        if self.open_count() >= MAX_OPEN {
            return Err(PusError::TrackerFull);
        }
        self.add(Entry::new(id, asked));
        Ok(())
    }

    // A command that is sent, of PUS C; the strict verdict's refusals, 17, 18. One that asks for no report opens nothing. Where it is
    // refused, the tracker stays as it was.
    pub fn send(&mut self, octets: &[u8]) -> Result<(), PusError>
        ensures { outcome result self.new ≡ send_of self.old octets.now }
    {
        let record = tc_strict::judge(octets)?;
        self.enter(request_of(octets), record.sec_header.ack_flags.raw_value())
    }
}
