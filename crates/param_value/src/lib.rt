// One parameter value in octets. ECSS-E-ST-70-41C, 7.3: unsigned (PTC 3) and signed (PTC 4) integers of 1, 2, 3, 4, 6 and 8 octets, and
// real numbers (PTC 5), single and double.
#![tactic(auto)]

ghost use Rattle.std.specs.Prelude.{◌≡◌, IfOk, [], eqb, ◌-◌, ◌^◌, ◌≤◌, ◌<◌, length};
ghost use Rattle.std.specs.Float.{binary32, binary64};
ghost use Rattle.std.specs.Float.Ieee.{nan_bits};
ghost use Rattle.space_packet.specs.Answer.{answer_of, gives, refusal, refuse_if};
ghost use Rattle.space_packet.specs.Wrote.{Wrote};
ghost use Rattle.param_value.specs.Octets.{number_of, octets_of, given_by};
ghost use Rattle.param_value.specs.Values.{octets_for, int_octets, real_octets, kind_is, signed_of, signed_bits, single_of, double_of, value_of, single_from, value_from, pattern_of, read_value, value_octets, write_value};

use space_packet::{ByteConversionError, PusError};

// A value as the desk reads it. An f32 and an f64 do not keep the bits of a NaN: these have cases of their own.
#[derive(Clone, Copy, PartialEq)]
pub enum Value {
    Unsigned(u64),
    Signed(i64),
    Single(f32),
    SingleNan(u32),
    Double(f64),
    DoubleNan(u64),
}

// ---- types

fn int_octets(pfc: u16) -> usize
    ensures { result ≡ int_octets pfc }
{
    match pfc {
        4 => 1,
        12 => 2,
        13 => 3,
        14 => 4,
        15 => 6,
        16 => 8,
        _ => 0,
    }
}

fn real_octets(pfc: u16) -> usize
    ensures { result ≡ real_octets pfc }
{
    match pfc {
        1 => 4,
        2 => 8,
        _ => 0,
    }
}

// The octets of a type's values; 0 for a type that is not named here.
#[tactic(auto, unfolding(crate::specs::Values::octets_for))]
pub fn octets_for(ptc: u16, pfc: u16) -> usize
    ensures { result ≡ octets_for ptc pfc }
{
    match ptc {
        3 | 4 => int_octets(pfc),
        5 => real_octets(pfc),
        _ => 0,
    }
}

// The octets of a type that is named; 21.
#[tactic(auto, using(crate::proofs::Types::octets_le), unfolding(space_packet::specs::Answer::refuse_if))]
fn named_octets(ptc: u16, pfc: u16) -> Result<usize, PusError>
    ensures value { answer_of result ≡ refuse_if (eqb (octets_for ptc pfc) 0) (refusal 21 []) (gives (octets_for ptc pfc)) }
    ensures bound { IfOk result (λ k. (1 ≤ k) × (k ≤ 8)) }
{
    match octets_for(ptc, pfc) {
        0 => Err(PusError::ParameterList),
        octets => Ok(octets),
    }
}

// The largest number of some octets.
fn largest(octets: usize) -> u64
    requires { (1 ≤ octets) × (octets ≤ 8) }
    ensures { result ≡ 256 ^ octets - 1 }
{
    u64::MAX >> (64 - 8 * octets)
}

// Whether a pattern is a NaN's: the standard library's from_bits, on which is_nan could be called, asks that it is none.
fn is_nan32(bits: u32) -> bool
    ensures { result ≡ nan_bits binary32 bits }
{
    bits & 0x7FFF_FFFF > 0x7F80_0000
}

fn is_nan64(bits: u64) -> bool
    ensures { result ≡ nan_bits binary64 bits }
{
    bits & 0x7FFF_FFFF_FFFF_FFFF > 0x7FF0_0000_0000_0000
}

// ---- the value of a pattern

// Two's complement: the number that a pattern of some octets stands for.
#[tactic(auto, using(crate::proofs::Signs::low_is, crate::proofs::Signs::high_is))]
fn signed(octets: usize, bits: u64) -> i64
    requires { (1 ≤ octets) × (octets ≤ 8) × (bits < 256 ^ octets) }
    ensures { result ≡ signed_of octets bits }
{
    let most = largest(octets);
    if bits <= most / 2 {
        bits as i64
    } else {
        !((most - bits) as i64)
    }
}

fn single_of(bits: u32) -> Value
    ensures { result ≡ single_of bits }
{
    if is_nan32(bits) {
        Value::SingleNan(bits)
    } else {
        Value::Single(f32::from_bits(bits))
    }
}

fn double_of(bits: u64) -> Value
    ensures { result ≡ double_of bits }
{
    if is_nan64(bits) {
        Value::DoubleNan(bits)
    } else {
        Value::Double(f64::from_bits(bits))
    }
}

#[tactic(auto, using(crate::proofs::Types::octets_le, crate::proofs::Types::is_real), unfolding(crate::specs::Values::value_of))]
fn value_of(ptc: u16, pfc: u16, bits: u64) -> Value
    requires { (1 ≤ octets_for ptc pfc) × (bits < 256 ^ octets_for ptc pfc) }
    ensures { result ≡ value_of ptc pfc bits }
{
    match ptc {
        3 => Value::Unsigned(bits),
        4 => Value::Signed(signed(octets_for(ptc, pfc), bits)),
        _ if pfc == 1 => single_of(bits as u32),
        _ => double_of(bits),
    }
}

// A pattern of more than 32 bits is no single's.
fn single_from(bits: u64) -> Value
    ensures { result ≡ single_from bits }
{
    match u32::try_from(bits) {
        Ok(bits) => single_of(bits),
        Err(_) => Value::SingleNan(0),
    }
}

// The value of a kind, by its bits: 1 an unsigned integer, 2 a signed one in two's complement of 64 bits, 3 a single, 4 a double. Another
// kind, or a single of more than 32 bits, gives `SingleNan(0)`, which is no NaN and which every type that is named refuses with 24.
// A kind stays a number, since the clause answers for any.
#[tactic(auto, unfolding(crate::specs::Values::value_from))]
pub fn value_from(kind: u64, bits: u64) -> Value
    ensures { result ≡ value_from kind bits }
{
    match kind {
        1 => Value::Unsigned(bits),
        2 => Value::Signed(signed(8, bits)),
        3 => single_from(bits),
        4 => double_of(bits),
        _ => Value::SingleNan(0),
    }
}

// ---- the pattern of a value

// Two's complement: the pattern of a number, down to the smallest.
#[tactic(auto, using(crate::proofs::Powers::some, crate::proofs::Powers::even), unfolding(space_packet::specs::Answer::refuse_if, crate::specs::Values::signed_bits))]
fn signed_bits(octets: usize, value: i64) -> Result<u64, PusError>
    requires { (1 ≤ octets) × (octets ≤ 8) }
    ensures { answer_of result ≡ signed_bits octets value }
{
    let most = largest(octets);
    if value < 0 {
        let m = !value as u64;
        if most / 2 < m {
            return Err(PusError::ParameterValue);
        }
        return Ok(most - m);
    }
    let n = value as u64;
    if most / 2 < n {
        return Err(PusError::ParameterValue);
    }
    Ok(n)
}

// Whether a value is of the kind that a type has.
fn kind_is(ptc: u16, pfc: u16, value: Value) -> bool
    ensures { result ≡ kind_is ptc pfc value }
{
    match value {
        Value::Unsigned(_) => ptc == 3,
        Value::Signed(_) => ptc == 4,
        Value::Single(_) | Value::SingleNan(_) => ptc == 5 && pfc == 1,
        Value::Double(_) | Value::DoubleNan(_) => ptc == 5 && pfc == 2,
    }
}

// The pattern of a value of a type; 21, a type that is not named; 24, a value of another kind or over its width.
#[tactic(auto, using(crate::proofs::Powers::some), unfolding(space_packet::specs::Answer::refuse_if, crate::specs::Values::pattern_of))]
pub fn pattern_of(ptc: u16, pfc: u16, value: Value) -> Result<u64, PusError>
    ensures { answer_of result ≡ pattern_of ptc pfc value }
{
    let octets = named_octets(ptc, pfc)?;
    if !kind_is(ptc, pfc, value) {
        return Err(PusError::ParameterValue);
    }
    match value {
        Value::Unsigned(n) if n <= largest(octets) => Ok(n),
        Value::Signed(z) => signed_bits(octets, z),
        Value::Single(x) if !x.is_nan() => Ok(u64::from(x.to_bits())),
        Value::SingleNan(bits) if is_nan32(bits) => Ok(u64::from(bits)),
        Value::Double(x) if !x.is_nan() => Ok(x.to_bits()),
        Value::DoubleNan(bits) if is_nan64(bits) => Ok(bits),
        _ => Err(PusError::ParameterValue),
    }
}

// ---- octets

// The number that octets stand for.
fn number_of(s: &[u8]) -> u64
    requires { length s.now ≤ 8 }
    ensures value { result ≡ number_of s.now }
    ensures bound { result < 256 ^ length s.now }
{
    s.iter().fold(0, |n, &octet| n << 8 | u64::from(octet))
}

// The value that octets begin with; 21, 2.
#[tactic(auto, unfolding(space_packet::specs::Answer::refuse_if, crate::specs::Values::read_value))]
pub fn read_value(ptc: u16, pfc: u16, s: &[u8]) -> Result<Value, PusError>
    ensures { answer_of result ≡ read_value ptc pfc s.now }
{
    let octets = named_octets(ptc, pfc)?;
    if s.len() < octets {
        return Err(PusError::ByteConversion(ByteConversionError::FromSliceTooSmall {
            found: s.len(),
            expected: octets,
        }));
    }
    Ok(value_of(ptc, pfc, number_of(&s[..octets])))
}

// Fills a part with the lowest octets of a number.
fn put_number(number: u64, part: &mut [u8])
    requires { length part.old ≤ 8 }
    ensures { part.new ≡ octets_of (length part.old) number }
{
    let octets = number.to_be_bytes();
    part.copy_from_slice(&octets[8 - part.len()..]);
}

// Writes a value over the first octets of a buffer; 21, 24, 1.
#[tactic(auto, using(crate::proofs::Types::octets_le, crate::proofs::Calls::octets_length), unfolding(space_packet::specs::Answer::and_then, space_packet::specs::Answer::refuse_if, crate::specs::Octets::size_in, crate::specs::Values::value_octets))]
pub fn write_value(ptc: u16, pfc: u16, value: Value, buf: &mut [u8]) -> Result<usize, PusError>
    ensures { Wrote (write_value ptc pfc value (length buf.old)) (given_by (value_octets ptc pfc value)) buf.old result buf.new }
{
    let bits = pattern_of(ptc, pfc, value)?;
    let octets = octets_for(ptc, pfc);
    if buf.len() < octets {
        return Err(PusError::ByteConversion(ByteConversionError::ToSliceTooSmall {
            found: buf.len(),
            expected: octets,
        }));
    }
    put_number(bits, &mut buf[..octets]);
    Ok(octets)
}
