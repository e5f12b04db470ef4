// The requests on parameter commands.
use param_value::Value;
use params::{Pair, Params};
use protocol_fields::{Pieces, number, octets, pair, show};

// params LIST DATA
pub(crate) fn read(mut fields: Pieces<'_>, room: &mut [u8]) -> Option<()> {
    let mut list = [[0u16; 3]; 256];
    let list = rows(fields.next()?, &mut list)?;
    let (data, _) = octets(fields.next()?, room)?;
    fields.end()?;
    let mut params = Params::new();
    match params.read(list, data) {
        Err(e) => show::refusal(e),
        Ok(()) => told(&params),
    }
    Some(())
}

// wparams LIST PAIRS BUF
pub(crate) fn write(mut fields: Pieces<'_>, room: &mut [u8]) -> Option<()> {
    let mut list = [[0u16; 3]; 256];
    let list = rows(fields.next()?, &mut list)?;
    let params = pairs(fields.next()?)?;
    let (buf, _) = octets(fields.next()?, room)?;
    fields.end()?;
    show::written(params.write_to_slice(list, buf), buf);
    Some(())
}

// ---- LIST

// The rows of a list, at the start of room, which has to hold them.
fn rows<'a>(s: &[u8], room: &'a mut [[u16; 3]]) -> Option<&'a [[u16; 3]]> {
    let mut n = 0;
    for item in Pieces::list(s) {
        *room.get_mut(n)? = row(item)?;
        n += 1;
    }
    room.get(..n)
}

// ID,PTC,PFC
fn row(item: &[u8]) -> Option<[u16; 3]> {
    let mut values = Pieces::new(item, b',');
    let row = [
        number(values.next()?)?,
        number(values.next()?)?,
        number(values.next()?)?,
    ];
    values.end()?;
    Some(row)
}

// ---- PAIRS

fn pairs(s: &[u8]) -> Option<Params> {
    let mut params = Params::new();
    for item in Pieces::list(s) {
        let (id, value) = pair(item, b'=')?;
        params.push(Pair {
            id: number(id)?,
            value: value_of(value)?,
        });
    }
    Some(params)
}

// u:N, s:N, f: and d: with their digits.
fn value_of(said: &[u8]) -> Option<Value> {
    let (letter, s) = pair(said, b':')?;
    match letter {
        b"u" => Some(Value::Unsigned(number(s)?)),
        b"s" => Some(Value::Signed(signed(s)?)),
        b"f" => real(1, 4, s),
        b"d" => real(2, 8, s),
        _ => None,
    }
}

fn signed(s: &[u8]) -> Option<i64> {
    match s {
        [b'-', digits @ ..] => 0i64.checked_sub_unsigned(number(digits)?),
        _ => number(s),
    }
}

// A real of so many octets.
fn real(pfc: u16, count: usize, s: &[u8]) -> Option<Value> {
    let mut room = [0u8; 8];
    let (octets, _) = octets(s, &mut room)?;
    if octets.len() != count {
        return None;
    }
    param_value::read_value(5, pfc, octets).ok()
}

// ---- answers

fn told(params: &Params) {
    show::number(b"ok ", params.len() as u64);
    for i in 0..params.len() {
        if let Some(pair) = params.get(i) {
            show::number(b" ", u64::from(pair.id));
            value(pair.value);
        }
    }
}

fn value(value: Value) {
    match value {
        Value::Unsigned(n) => show::number(b"=u:", n),
        Value::Signed(z) if z < 0 => show::number(b"=s:-", z.unsigned_abs()),
        Value::Signed(z) => show::number(b"=s:", z.unsigned_abs()),
        Value::Single(_) | Value::SingleNan(_) => bits(b"=f:", 1, value),
        Value::Double(_) | Value::DoubleNan(_) => bits(b"=d:", 2, value),
    }
}

// The octets of a real, after some words.
fn bits(words: &[u8], pfc: u16, value: Value) {
    let mut out = [0u8; 8];
    show::say(words);
    if let Ok(n) = param_value::write_value(5, pfc, value, &mut out) {
        show::hex(text::part(&out, 0, n));
    }
}
