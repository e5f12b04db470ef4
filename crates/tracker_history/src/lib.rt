// What the desk asks of the tracker, as theorems: specs/History.antt says what is open by the history of the calls alone,
// specs/Answers.antt what is asked of the answers, proofs/ has the theorems.
//
// They are also proved here of the calls themselves. The functions below are there for their contracts, and nothing calls them.
#![tactic(auto)]

ghost use Rattle.std.specs.Prelude.{◌≡◌, ◌↔◌, true, length};
ghost use Rattle.space_packet.specs.Answer.{outcome};
ghost use Rattle.tracker.specs.Open.{request_at};
ghost use Rattle.tracker_history.specs.History.{History, start, ◌▸◌, sent, reported, open_after, open_in};
ghost use Rattle.tracker_history.specs.Answers.{run, Follows, OpenBy, Few};

use space_packet::PusError;
use tracker::Tracker;

// ---- one more call, after any calls

fn sent(tracker: &mut Tracker, octets: &[u8]) -> Result<(), PusError>
    ensures { (h : History) → tracker.old ≡ run h → Follows h (sent octets.now) (outcome result tracker.new) }
{
    tracker.send(octets)
}

fn reported(tracker: &mut Tracker, time_len: u8, octets: &[u8]) -> Result<(), PusError>
    ensures { (h : History) → tracker.old ≡ run h → Follows h (reported time_len octets.now) (outcome result tracker.new) }
{
    tracker.report(time_len, octets)
}

fn asked(tracker: &Tracker, id: u32) -> bool
    ensures { (h : History) → tracker.now ≡ run h → (result ≡ open_in h id) × ((result ≡ true) ↔ OpenBy h id) }
{
    tracker.is_open(id)
}

fn counted(tracker: &Tracker) -> usize
    ensures { (h : History) → tracker.now ≡ run h → (result ≡ length (open_after h)) × Few (open_after h) }
{
    tracker.open_count()
}

fn listed(tracker: &Tracker, i: usize) -> Option<u32>
    ensures { (h : History) → tracker.now ≡ run h → result ≡ request_at (open_after h) i }
{
    tracker.open_at(i)
}

// ---- calls in a row

fn in_a_row(time_len: u8, first: &[u8], report: &[u8], second: &[u8], id: u32) -> bool
    ensures { (result ≡ true) ↔ OpenBy (start ▸ sent first.now ▸ reported time_len report.now ▸ sent second.now) id }
{
    let mut tracker = Tracker::new();
    let _ = tracker.send(first);
    let _ = tracker.report(time_len, report);
    let _ = tracker.send(second);
    tracker.is_open(id)
}
