// What is asked of the two calls at a handover, as theorems: specs/Handover.antt has the words, proofs/ the theorems.
//
// They are also proved here of the calls themselves. The functions below are there for their contracts, and nothing calls them.
#![tactic(auto, using(crate::proofs::Apart::apart))]

ghost use Rattle.space_packet.specs.Answer.{answer_of};
ghost use Rattle.std.specs.Prelude.{◌≡◌, ◌↔◌, true};
ghost use Rattle.stations_handover.specs.Handover.{Passes, Refused, Same, Alike, Judged};

use space_packet::PusError;
use stations::Station;
use tm_read::PusTmRecord;

// ---- the capture that is not taken

// What both calls answer on two captures and on two others: the stations, and whether the parts are the same octets.
#[derive(Clone, Copy, PartialEq, Eq)]
struct Seen {
    one: Station,
    other: Station,
    same_part: bool,
}

fn twice(time_len: u8, first: &[u8], second: &[u8], third: &[u8], fourth: &[u8]) -> Seen
    ensures { Same time_len first.now second.now third.now fourth.now → Alike result }
{
    Seen {
        one: stations::best_station(time_len, first, second),
        other: stations::best_station(time_len, third, fourth),
        same_part: stations::best(time_len, first, second)
            == stations::best(time_len, third, fourth),
    }
}

// The first capture passes: another second one changes nothing.
fn other_second(time_len: u8, first: &[u8], second: &[u8], other: &[u8]) -> Seen
    ensures { Passes time_len first.now → Alike result }
{
    twice(time_len, first, second, first, other)
}

// The second capture passes alone: another first one, refused as well, changes nothing.
fn other_first(time_len: u8, first: &[u8], other: &[u8], second: &[u8]) -> Seen
    ensures { Refused time_len first.now → Refused time_len other.now → Passes time_len second.now → Alike result }
{
    twice(time_len, first, second, other, second)
}

// ---- the part

// It is judged itself.
fn judged(time_len: u8, first: &[u8], second: &[u8]) -> Result<PusTmRecord, PusError>
    ensures { Judged time_len first.now second.now (answer_of result) }
{
    tm_strict::judge(time_len, stations::best(time_len, first, second))
}

fn is_empty(time_len: u8, first: &[u8], second: &[u8]) -> bool
    ensures { (result ≡ true) ↔ (Refused time_len first.now × Refused time_len second.now) }
{
    stations::best(time_len, first, second).is_empty()
}
