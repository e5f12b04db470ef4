// Parameter commands in engineering form: the application data of the set request, service 20 subtype 3, as pairs of a parameter and its
// value. Types come from a lent list of the mission's parameters: rows of an ID, its PTC and its PFC, the IDs strictly rising.
#![tactic(auto)]

ghost use Rattle.space_packet.specs.Answer.{answer_of, outcome};
ghost use Rattle.std.specs.Prelude.{◌≡◌, true, not, eqb, [], ◌++◌, ◌+◌, ◌≤◌, OnOk, IfOk, length, take, drop};
ghost use Rattle.space_packet.specs.Wrote.{Wrote};
ghost use Rattle.param_value.specs.Octets.{given_by};
ghost use Rattle.params.specs.Parameters.{octets_by, list_good, list_check, known, row_in};
ghost use Rattle.params.specs.Request.{holding, pushed, pairs_of, pair_at, read_pair, read_in, ids_known, pair_octets, pairs_octets, record_octets, write_in, length_of};
ghost use Rattle.params.specs.Places.{HasRoom};

use param_value::Value;
use space_packet::{ByteConversionError, PusError};

// A parameter and its value.
#[derive(Clone, Copy, PartialEq)]
pub struct Pair {
    pub id: u16,
    pub value: Value,
}

const BLANK: Pair = Pair {
    id: 0,
    value: Value::Unsigned(0),
};

// The pairs of a request: the first `count`. A count above 255 says that there were more. An array and its count, since there is no heap.
#[derive(Clone, Copy, PartialEq)]
pub struct Params {
    pairs: [Pair; 255],
    count: usize,
}

// A pair that was read, and where it ends.
#[derive(Clone, Copy, PartialEq)]
struct Found {
    pair: Pair,
    end: usize,
}

// ---- the list; a row stays three numbers, as specs/Parameters.antt and the theorems on it have it

// The type of a row is named.
fn is_named(row: &[u16; 3]) -> bool
    ensures { result ≡ not (eqb (octets_by row.now) 0) }
{
    param_value::octets_for(row[1], row[2]) != 0
}

// Each type is named, and each ID is below the next. Row by row, up to the first that is not good.
fn is_good(list: &[[u16; 3]]) -> bool
    ensures { result ≡ list_good list.now }
{
    list.is_sorted_by(|row, next| is_named(row) && row[0] < next[0])
        && list.last().is_none_or(is_named)
}

// 21 where the list is not strictly rising, or has a type that is not named.
#[tactic(auto, unfolding(space_packet::specs::Answer::refuse_if, crate::specs::Parameters::list_check))]
pub fn check_list(list: &[[u16; 3]]) -> Result<(), PusError>
    ensures { answer_of result ≡ list_check list.now }
{
    if !is_good(list) {
        return Err(PusError::ParameterList);
    }
    Ok(())
}

// The row of a parameter.
fn find_row(list: &[[u16; 3]], id: u16) -> Option<[u16; 3]>
    ensures { result ≡ row_in list.now id }
{
    list.iter().find(|row| row[0] == id).copied()
}

// ---- reading

fn ended_early(data: &[u8], expected: usize) -> PusError
    ensures { result ≡ PusError.ByteConversion (ByteConversionError.FromSliceTooSmall (length «data».now) expected) }
{
    PusError::ByteConversion(ByteConversionError::FromSliceTooSmall {
        found: data.len(),
        expected,
    })
}

// The pair from octet `at` on; 2, 22, 2.
#[tactic(auto, using(param_value::proofs::Types::octets_le, crate::proofs::Lists::known_by, crate::proofs::ReadLaws::tail_is), unfolding(space_packet::specs::Answer::refuse_if, param_value::specs::Values::read_value, crate::specs::Request::read_pair))]
fn read_pair(list: &[[u16; 3]], data: &[u8], at: usize) -> Result<Found, PusError>
    requires { (list_good list.now ≡ true) × (at ≤ length «data».now) }
    ensures { answer_of result ≡ read_pair list.now «data».now at }
{
    if data.len() < at + 2 {
        return Err(ended_early(data, at + 2));
    }
    let id = space_packet::word_at(data, at);
    let [_, ptc, pfc] = find_row(list, id).ok_or(PusError::UnknownParameter)?;
    let end = at + 2 + param_value::octets_for(ptc, pfc);
    let value = param_value::read_value(ptc, pfc, &data[at + 2..]).map_err(|_| ended_early(
        data, end,
    ))?;
    Ok(Found {
        pair: Pair { id, value },
        end,
    })
}

impl Params {
    // No pairs.
    #[tactic(auto, unfolding(crate::specs::Request::holding))]
    pub fn new() -> Params
        ensures { result ≡ holding [] }
    {
        Params {
            pairs: [BLANK; 255],
            count: 0,
        }
    }

    // One pair more. A 256th is not kept: the count then says that there were more than 255.
    pub fn push(&mut self, pair: Pair)
        ensures { self.new ≡ pushed self.old pair }
    {
        if self.count < 255 {
            self.pairs[self.count] = pair;
            self.count += 1;
        } else {
            self.count = 256;
        }
    }

    // Reads the pairs of a request, by its application data; 21; 2 or 22, the first met; 23. There are none where it is refused.
    #[tactic(auto, unfolding(crate::specs::Request::kept_of))]
    pub fn read(&mut self, list: &[[u16; 3]], data: &[u8]) -> Result<(), PusError>
        ensures { outcome result self.new ≡ read_in list.now «data».now }
    {
        *self = Params::new();
        let read = self.read_pairs(list, data);
        if read.is_err() {
            *self = Params::new();
        }
        read
    }

    // Reads the pairs into an empty record, and leaves those before a refusal there.
    #[tactic(auto, unfolding(space_packet::specs::Answer::and_then, space_packet::specs::Answer::refuse_if, crate::specs::Request::read_request, crate::specs::Request::all_read, crate::specs::Request::kept_of))]
    fn read_pairs(&mut self, list: &[[u16; 3]], data: &[u8]) -> Result<(), PusError>
        requires { self.old ≡ holding [] }
        ensures passed { answer_of result ≡ (read_in list.now «data».now).passed }
        ensures kept { OnOk result (self.new ≡ (read_in list.now «data».now).kept) }
    {
        check_list(list)?;
        let &[count, ..] = data else {
            return Err(ended_early(data, 1));
        };
        let mut at = 1;
        for _i in 0..count {
            let found = read_pair(list, data, at)?;
            self.push(found.pair);
            at = found.end;
        }
        if at < data.len() {
            return Err(PusError::OctetsLeftOver);
        }
        Ok(())
    }

    // The pairs that are kept.
    fn kept(&self) -> &[Pair]
        ensures value { result.now ≡ pairs_of self.now }
        ensures bound { length result.now ≤ 255 }
    {
        &self.pairs[..self.count.min(255)]
    }

    // How many pairs there are; 256 where there were more than 255.
    pub fn len(&self) -> usize
        ensures { result ≡ self.now.count }
    {
        self.count
    }

    // The i-th pair, from 0 on.
    pub fn get(&self, i: usize) -> Option<Pair>
        ensures { result ≡ pair_at (pairs_of self.now) i }
    {
        self.kept().get(i).copied()
    }

    // ---- writing

    fn ids_known(&self, list: &[[u16; 3]]) -> bool
        ensures { result ≡ ids_known list.now (pairs_of self.now) }
    {
        self.kept()
            .iter()
            .all(|pair| find_row(list, pair.id).is_some())
    }

    // The octets of the pairs; 24.
    fn pairs_len(&self, list: &[[u16; 3]]) -> Result<usize, PusError>
        requires { ids_known list.now (pairs_of self.now) ≡ true }
        ensures value { answer_of result ≡ length_of (pairs_octets list.now (pairs_of self.now)) }
        ensures bound { IfOk result (λ n. n ≤ 2550) }
    {
        let mut total = 0;
        for &pair in self.kept() {
            total += pair_len(list, pair)?;
        }
        Ok(total)
    }

    // The octets of the request; 21, 22, 24.
    #[tactic(auto, unfolding(space_packet::specs::Answer::and_then, space_packet::specs::Answer::refuse_if, crate::specs::Request::request_octets, crate::specs::Request::length_of))]
    pub fn len_written(&self, list: &[[u16; 3]]) -> Result<usize, PusError>
        ensures { answer_of result ≡ length_of (record_octets list.now self.now) }
    {
        check_list(list)?;
        if !self.ids_known(list) {
            return Err(PusError::UnknownParameter);
        }
        if 255 < self.count {
            return Err(PusError::ParameterValue);
        }
        Ok(1 + self.pairs_len(list)?)
    }

    // Writes the pairs behind the first octet of a buffer that has room for them.
    fn put_pairs(&self, list: &[[u16; 3]], buf: &mut [u8])
        requires { HasRoom (pairs_octets list.now (pairs_of self.now)) 1 (length buf.old) }
        ensures { buf.new ≡ take 1 buf.old ++ given_by (pairs_octets list.now (pairs_of self.now)) ++ drop (1 + length (given_by (pairs_octets list.now (pairs_of self.now)))) buf.old }
    {
        let mut at = 1;
        for &pair in self.kept() {
            at += put_pair(list, pair, &mut buf[at..]);
        }
    }

    // Writes the application data of the request over the first octets of a buffer; 21, 22, 24, 1.
    #[tactic(auto, unfolding(space_packet::specs::Answer::and_then, space_packet::specs::Answer::refuse_if, param_value::specs::Octets::size_in, crate::specs::Request::length_of))]
    pub fn write_to_slice(&self, list: &[[u16; 3]], buf: &mut [u8]) -> Result<usize, PusError>
        ensures { Wrote (write_in list.now self.now (length buf.old)) (given_by (record_octets list.now self.now)) buf.old result buf.new }
    {
        let total = self.len_written(list)?;
        if buf.len() < total {
            return Err(PusError::ByteConversion(ByteConversionError::ToSliceTooSmall {
                found: buf.len(),
                expected: total,
            }));
        }
        buf[0] = self.count as u8;
        self.put_pairs(list, buf);
        Ok(total)
    }
}

// The octets of a pair; 24.
#[tactic(auto, using(param_value::proofs::Types::octets_le, param_value::proofs::Calls::octets_length), unfolding(space_packet::specs::Answer::and_then, param_value::specs::Values::value_octets, crate::specs::Request::pair_octets, crate::specs::Request::length_of))]
fn pair_len(list: &[[u16; 3]], pair: Pair) -> Result<usize, PusError>
    requires { known list.now pair.id ≡ true }
    ensures { answer_of result ≡ length_of (pair_octets list.now pair) }
{
    let [_, ptc, pfc] = find_row(list, pair.id).unwrap();
    param_value::pattern_of(ptc, pfc, pair.value)?;
    Ok(2 + param_value::octets_for(ptc, pfc))
}

// Writes a pair over the first octets of a part that has room for it, and answers how many they are.
fn put_pair(list: &[[u16; 3]], pair: Pair, part: &mut [u8]) -> usize
    requires { HasRoom (pair_octets list.now pair) 0 (length part.old) }
    ensures { (result ≡ length (given_by (pair_octets list.now pair))) × (part.new ≡ given_by (pair_octets list.now pair) ++ drop (length (given_by (pair_octets list.now pair))) part.old) }
{
    let [_, ptc, pfc] = find_row(list, pair.id).unwrap();
    let (id, value) = part.split_at_mut(2);
    id.copy_from_slice(&pair.id.to_be_bytes());
    2 + param_value::write_value(ptc, pfc, pair.value, value).unwrap()
}
