// Best of two stations: of two captures of one telemetry packet, the packet as a part of the one that passes the strict verdict.
#![tactic(auto, using(crate::proofs::Choices::parts), unfolding(crate::specs::Best::chosen))]

ghost use Rattle.std.specs.Prelude.{◌≡◌};
ghost use Rattle.stations.specs.Best.{chosen, best_in, best_at, station_answer};

use space_packet::PusError;

// The station whose capture passes, or both refusals.
#[derive(Clone, Copy, PartialEq, Eq)]
pub enum Station {
    First,
    Second,
    Neither(PusError, PusError),
}

// The first where both pass; where neither does, of each the first of 14, 2, 4, 9, 13, 11, 3, 12.
pub fn best_station(time_len: u8, first: &[u8], second: &[u8]) -> Station
    ensures { station_answer result ≡ chosen time_len first.now second.now }
{
    match tm_strict::judge(time_len, first) {
        Ok(_) => Station::First,
        Err(d) => match tm_strict::judge(time_len, second) {
            Ok(_) => Station::Second,
            Err(e) => Station::Neither(d, e),
        },
    }
}

// The packet that the station's capture begins with, without a copy; the empty part where neither passes.
pub fn best<'a>(time_len: u8, first: &'a [u8], second: &'a [u8]) -> &'a [u8]
    ensures result_value { result.now ≡ best_in time_len first.now second.now }
    ensures ref_ptr_value { result.ref_ptr ≡ best_at time_len first.now second.now first.entry.ref_ptr second.entry.ref_ptr }
{
    match best_station(time_len, first, second) {
        Station::First => tm_read::raw_data(time_len, first, true),
        Station::Second => tm_read::raw_data(time_len, second, true),
        Station::Neither(_, _) => &first[..0],
    }
}
