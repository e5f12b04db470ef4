// The words of a line protocol: pieces of a line, numbers and octets as text, and a buffer that answers are laid into.
// No call refuses anything: a place past the end is an empty part, a field that says nothing is `None`, and what is laid past the
// end of a buffer is dropped.
#![tactic(auto, unfolding(crate::specs::Digits::hex_glyph, crate::specs::Digits::hex_value, crate::specs::Digits::hex_text, crate::specs::Digits::pair_value, crate::specs::Digits::with_digit, crate::specs::Digits::number_from, crate::specs::Digits::number_of, crate::specs::Digits::word_of, crate::specs::Page::placed, crate::specs::Page::laid, crate::specs::Page::octets_of))]

ghost use Rattle.std.specs.Prelude.{◌≡◌, true, [], ◌∷◌, ◌+◌, ◌-◌, ◌/◌, ◌%◌, ◌<◌, take, drop, unwrap_or, IfSome};
ghost use Rattle.text.specs.Pieces.{gap, count_of, piece_of};
ghost use Rattle.text.specs.Digits.{hex_glyph, hex_value, hex_octet, hex_text, pair_value, are_pairs, pair_octets, with_digit, decimal, number_from, number_of, word_of};
ghost use Rattle.text.specs.Page.{page, placed, laid, read, octets_of};

// ---- a line and its pieces

// What stands from a place on; past the end that is nothing.
fn tail(s: &[u8], at: usize) -> &[u8]
    ensures { result.now ≡ drop at s.now }
{
    s.get(at..).unwrap_or(&[])
}

// The octets from a up to e, as far as s has them.
pub fn part(s: &[u8], a: usize, e: usize) -> &[u8]
    ensures { result.now ≡ take (e - a) (drop a s.now) }
{
    let rest = tail(s, a);
    rest.get(..e.saturating_sub(a)).unwrap_or(rest)
}

// The place of the first b from `from` on, or the end.
pub fn seek(s: &[u8], from: usize, b: u8) -> usize
    ensures { result ≡ from + gap b (drop from s.now) }
{
    let rest = tail(s, from);
    from + rest.iter().position(|c| *c == b).unwrap_or(rest.len())
}

// Piece k of what separators cut; the first is 0, and past the last they are empty.
pub fn piece(s: &[u8], sep: u8, k: usize) -> &[u8]
    ensures { result.now ≡ piece_of sep k s.now }
{
    s.split(|c| *c == sep).nth(k).unwrap_or(&[])
}

// How many pieces there are: one more than separators.
pub fn pieces(s: &[u8], sep: u8) -> usize
    ensures { result ≡ 1 + count_of sep s.now }
{
    s.split(|c| *c == sep).count()
}

// ---- what a field says

// The character of a hexadecimal digit.
fn hex_glyph(d: u8) -> u8
    requires { d < 16 }
    ensures { result ≡ hex_glyph d }
{
    if d < 10 { b'0' + d } else { b'A' - 10 + d }
}

// The value of a hexadecimal digit; `hex_value` has 16 for any other character.
fn hex_value(c: u8) -> Option<u8>
    ensures value { unwrap_or result 16 ≡ hex_value c }
    ensures bound { IfSome result (λ d. d < 16) }
{
    match c {
        b'0'..=b'9' => Some(c - b'0'),
        b'A'..=b'F' => Some(c - b'A' + 10),
        _ => None,
    }
}

// The octet of two digits; `pair_value` has 256 for other characters.
fn pair(x: u8, y: u8) -> Option<u8>
    ensures value { unwrap_or result 256 ≡ pair_value x y }
    ensures bound { IfSome result (λ v. v < 256) }
{
    Some(hex_value(x)? * 16 + hex_value(y)?)
}

// A number's digits and one more.
fn with_digit(n: u64, c: u8) -> Option<u64>
    ensures { result ≡ with_digit n (hex_value c) }
{
    let digit = char::from(c).to_digit(10)?;
    n.checked_mul(10)?.checked_add(u64::from(digit))
}

fn digits(s: &[u8]) -> Option<u64>
    ensures { result ≡ number_from 0 s.now }
{
    let mut n = 0;
    for c in s {
        n = with_digit(n, *c)?;
    }
    Some(n)
}

// A decimal of 1 to 20 digits, below 2^64.
pub fn number(s: &[u8]) -> Option<u64>
    ensures { result ≡ number_of s.now }
{
    match s.len() {
        1..=20 => digits(s),
        _ => None,
    }
}

// Four hexadecimal digits.
pub fn word(s: &[u8]) -> Option<u16>
    ensures { result ≡ word_of s.now }
{
    let [a, b, c, d] = s else {
        return None;
    };
    Some(u16::from_be_bytes([pair(*a, *b)?, pair(*c, *d)?]))
}

// Whether a text is pairs of digits to its end.
fn are_pairs(s: &[u8]) -> bool
    ensures { result ≡ are_pairs s.now }
{
    let (pairs, rest) = s.as_chunks::<2>();
    rest.is_empty() && pairs.iter().all(|[x, y]| pair(*x, *y).is_some())
}

// Puts the octets of pairs of digits at the start of out, and answers the place after them.
fn decode(s: &[u8], out: &mut [u8]) -> usize
    requires { are_pairs s.now ≡ true }
    ensures { page out.new result ≡ laid (page out.old 0) (pair_octets s.now) }
{
    let (pairs, _) = s.as_chunks::<2>();
    let mut n = 0;
    for [x, y] in pairs {
        n = put(out, n, pair(*x, *y).unwrap());
    }
    n
}

// What a field writes that has none.
const NO_OCTETS: &[u8] = b"-";

// Puts the octets that a field writes at the start of out, and answers how many; `-` is none. A bad field, or one with more
// octets than out has room for, leaves out as it was.
pub fn octets(s: &[u8], out: &mut [u8]) -> Option<usize>
    ensures { read result out.new ≡ octets_of out.old s.now }
{
    if s == NO_OCTETS {
        return Some(0);
    }
    if s.is_empty() || out.len() < s.len() / 2 || !are_pairs(s) {
        return None;
    }
    Some(decode(s, out))
}

// ---- answers, laid into a buffer: each call goes on at `at`, and answers the place after what it laid

// It writes by index: of a place that `get_mut` lends, a proof knows nothing afterwards.
pub fn put(out: &mut [u8], at: usize, b: u8) -> usize
    ensures { page out.new result ≡ placed (page out.old at) b }
{
    if at < out.len() {
        out[at] = b;
        return at + 1;
    }
    at
}

pub fn put_text(out: &mut [u8], mut at: usize, s: &[u8]) -> usize
    ensures { page out.new result ≡ laid (page out.old at) s.now }
{
    for b in s {
        at = put(out, at, *b);
    }
    at
}

fn put_octet(out: &mut [u8], at: usize, b: u8) -> usize
    ensures { page out.new result ≡ laid (page out.old at) (hex_octet b) }
{
    put_text(out, at, &[hex_glyph(b / 16), hex_glyph(b % 16)])
}

// The octets as pairs of digits.
pub fn put_hex(out: &mut [u8], mut at: usize, s: &[u8]) -> usize
    ensures { page out.new result ≡ laid (page out.old at) (hex_text s.now) }
{
    for b in s {
        at = put_octet(out, at, *b);
    }
    at
}

// Four digits.
pub fn put_word(out: &mut [u8], at: usize, w: u16) -> usize
    ensures { page out.new result ≡ laid (page out.old at) (hex_text (w / 256 ∷ w % 256 ∷ [])) }
{
    put_hex(out, at, &w.to_be_bytes())
}

// A decimal with no leading zeros.
pub fn put_number(out: &mut [u8], at: usize, n: u64) -> usize
    ensures { page out.new result ≡ laid (page out.old at) (decimal n) }
{
    let mut text = [0u8; 20];
    let k = io::decimal(n, &mut text);
    put_text(out, at, &text[..k])
}
