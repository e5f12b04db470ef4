// Gaps in a recorded uplink: the places of a capture where the sequence count of an APID does not follow its last.
#![tactic(auto, unfolding(space_packet::specs::Answer::and_then, space_packet::specs::Answer::set_if, space_packet::specs::Answer::refuse_if, crate::specs::Records::gap_in))]

ghost use Rattle.std.specs.Prelude.{◌≡◌, [], ◌∷◌, ◌+◌, ◌^◌, ◌<◌, ◌≤◌, leb, length, take, IfOk, MatchOption};
ghost use Rattle.space_packet.specs.Answer.{refusal, refuse_if, gives, set_if, numbers_of, answer_of, outcome};
ghost use Rattle.tc_strict.specs.Split.{step_answer};
ghost use Rattle.gaps.specs.Gaps.{State, place_of, after_count, noting, command_move, begin, Listed, sum_of, made, by_move, move_by, length_by, next_by};
ghost use Rattle.gaps.specs.Records.{gap_of_row};

use space_packet::{Apid, ByteConversionError, MAX_APID, MAX_SEQ_COUNT, PusError, SeqCount};
use std::marker::Model;
use tc_strict::split::{Cursor, Step};

// How many APIDs a capture may have.
pub const MAX_APIDS: usize = 64;

// Holds it to the number of the order, and is there for its contract.
fn max_apids() -> usize
    ensures { result ≡ 64 }
{
    MAX_APIDS
}

// ---- what is answered

// The octets of accepted packets, of refused ones and of the tail.
#[derive(Clone, Copy, PartialEq, Eq)]
pub struct Totals {
    pub accepted: usize,
    pub refused: usize,
    pub tail: usize,
}

// How many rows the list has been given, also where the walk was refused: so it stands beside the result and not in it.
#[derive(Clone, Copy, PartialEq, Eq)]
pub struct Listing {
    pub listed: usize,
    pub result: Result<Totals, PusError>,
}

// A row of the list as a record; the list itself holds three numbers, as `Rows` has it.
#[derive(Clone, Copy, PartialEq, Eq)]
pub struct Gap {
    pub apid: Apid,
    pub expected: SeqCount,
    pub found: SeqCount,
}

impl TryFrom<[u16; 3]> for Gap {
    type Error = PusError;

    ghost try_from_gives = { λ row gap. answer_of gap ≡ gap_of_row row };

    // The record of a row: APID, the count that was expected, the one that was found.
    fn try_from(row: [u16; 3]) -> Result<Gap, PusError> {
        let [apid, expected, found] = row;
        Ok(Gap {
            apid: Apid::new(apid)?,
            expected: SeqCount::new(expected)?,
            found: SeqCount::new(found)?,
        })
    }
}

// ---- where a walk stands

// A command: its APID and its sequence count. Public for the definitions that theorems of other crates cite.
#[derive(Clone, Copy, PartialEq, Eq)]
pub struct Command {
    apid: Apid,
    count: SeqCount,
}

// The last command of each of the first `apids` APIDs, in the order in which they came first; how many gaps are listed; the totals.
#[derive(Drop)]
struct Scan {
    lasts: [Command; MAX_APIDS],
    apids: usize,
    listed: usize,
    totals: Totals,
}

impl Model for Scan {
    ghost Value = { State };

    ghost view = { λ s. record { lasts = take s.apids s.lasts; listed = s.listed; totals = s.totals } };

    ghost invariant = { λ s. s.apids ≤ 64 };
}

// One more than a count, modulo 16,384.
fn after(count: SeqCount) -> u16
    ensures { result ≡ after_count count.0 }
{
    (count.value() % 16384 + 1) % 16384
}

// 1: a list of so many places has none for one more.
fn no_place(places: usize) -> PusError
    requires { places + 1 < 2 ^ 64 }
    ensures { numbers_of result ≡ refusal 1 (places ∷ (places + 1) ∷ []) }
{
    PusError::ByteConversion(ByteConversionError::ToSliceTooSmall {
        found: places,
        expected: places + 1,
    })
}

impl Scan {
    fn new() -> Scan
        ensures { result ≡ begin }
    {
        Scan {
            lasts: [Command {
                apid: MAX_APID,
                count: MAX_SEQ_COUNT,
            }; MAX_APIDS],
            apids: 0,
            listed: 0,
            totals: Totals {
                accepted: 0,
                refused: 0,
                tail: 0,
            },
        }
    }

    // Where an APID stands; none, where it has not come yet.
    fn place(&self, apid: Apid) -> Option<usize>
        ensures { MatchOption result (place_of self.now.lasts apid.0 ≡ length self.now.lasts) (λ p. (p ≡ place_of self.now.lasts apid.0) × (p < length self.now.lasts)) }
    {
        self.lasts[..self.apids]
            .iter()
            .position(|last| last.apid == apid)
    }

    // The first command of an APID.
    fn start(&mut self, command: Command, total: usize) -> Result<(), PusError>
        requires { self.old.totals.accepted + total < 2 ^ 64 }
        ensures { outcome result self.new ≡ set_if (refuse_if (leb 64 (length self.old.lasts)) (refusal 31 []) (gives tt)) self.old (noting self.old (length self.old.lasts) command self.old.listed total) }
    {
        if self.apids == MAX_APIDS {
            return Err(PusError::TooManyApids);
        }
        self.lasts[self.apids] = command;
        self.apids += 1;
        self.totals.accepted += total;
        Ok(())
    }

    // An accepted command of `total` octets; its gap, where there is one, is listed.
    fn accept(
        &mut self,
        command: Command,
        total: usize,
        list: &mut [[u16; 3]],
    ) -> Result<(), PusError>
        requires { self.old.totals.accepted + total < 2 ^ 64 }
        ensures { made result self.new list.new ≡ by_move (command_move (length list.old) self.old total command) self.old list.old }
    {
        let Some(place) = self.place(command.apid) else {
            return self.start(command, total);
        };
        let expected = after(self.lasts[place].count);
        let found = command.count.value();
        if found != expected {
            if self.listed >= list.len() {
                return Err(no_place(list.len()));
            }
            list[self.listed] = [command.apid.value(), expected, found];
            self.listed += 1;
        }
        self.lasts[place] = command;
        self.totals.accepted += total;
        Ok(())
    }

    // Takes the piece that a step found, and says where the next one begins; none, where the capture has ended.
    fn take(&mut self, step: Step, list: &mut [[u16; 3]]) -> Result<Option<Cursor>, PusError>
        requires { sum_of self.old.totals + length_by (step_answer step) < 2 ^ 64 }
        ensures moved { made result self.new list.new ≡ by_move (move_by (length list.old) self.old (step_answer step)) self.old list.old }
        ensures next { IfOk result (λ next. next ≡ next_by (step_answer step)) }
    {
        match step {
            Step::Packet {
                total,
                verdict,
                next,
                ..
            } => {
                match verdict {
                    Ok(record) => {
                        let command = Command {
                            apid: record.sp_header.apid(),
                            count: record.sp_header.seq_count(),
                        };
                        self.accept(command, total, list)?;
                    }
                    Err(_) => self.totals.refused += total,
                }
                Ok(Some(next))
            }
            Step::Tail { len, next, .. } => {
                self.totals.tail += len;
                Ok(Some(next))
            }
            Step::End => Ok(None),
        }
    }

    // Walks a capture from its beginning.
    fn walk(&mut self, capture: &[u8], list: &mut [[u16; 3]]) -> Result<Totals, PusError>
        requires { self.old ≡ begin }
        ensures { Listed capture.now list.old (record { listed = self.new.listed; result = result }) list.new }
    {
        let mut cursor = Cursor::new();
        while let Some(next) = self.take(cursor.step(capture), list)? {
            cursor = next;
        }
        Ok(self.totals)
    }
}

// ---- the walk

// Walks a capture of PUS C with no spare octets, and lists from the list's beginning on each place where an accepted command's count
// is not one more than the last of its APID. 31, at the first accepted command of a 65th APID; 1, at a gap that the list has no
// place for. What was listed before a refusal stands, and nothing after it is read.
pub fn list_gaps(capture: &[u8], list: &mut [[u16; 3]]) -> Listing
    ensures { Listed capture.now list.old result list.new }
{
    let mut scan = Scan::new();
    let result = scan.walk(capture, list);
    Listing {
        listed: scan.listed,
        result,
    }
}
