// Long rows of octets, by folding. A square over two elements doubles the exponents, so the powers of the generator
//
//     G^16 = x^256 + x^192 + x^80 + 1        G^64 = x^1024 + x^768 + x^320 + 1
//
// have four terms: what stands at the front of a row is struck out, and added again 64, 176 and 256 bits later, or four
// times as far.
ghost use Rattle.std.specs.Prelude.{◌≡◌, ◌+◌, ◌≤◌, length, take, drop};
ghost use Rattle.crc_register.specs.Crc.{crc_from};
ghost use Rattle.crc_register.specs.Added.{add_octets};
ghost use Rattle.crc_fold.specs.Word.{octs, Left};
ghost use Rattle.crc_fold.specs.Folded.{octs4, lows4, lows16};

use super::words;

// Four words in hand.
#[derive(Clone, Copy)]
struct Four {
    a: u64,
    b: u64,
    c: u64,
    d: u64,
}

// Sixteen words in hand, in four rows.
#[derive(Clone, Copy)]
struct Sixteen {
    a: Four,
    b: Four,
    c: Four,
    d: Four,
}

// The words in hand, and the place of the octets to come.
#[derive(Clone, Copy)]
struct InHand {
    words: Four,
    at: usize,
}

// The register, and the place of the octets to come.
#[derive(Drop)]
pub(crate) struct Taken {
    pub(crate) register: u16,
    pub(crate) at: usize,
}

// ---- words, by G^16

// The first word is struck out, and v taken in.
fn fold(f: Four, v: u64) -> Four
    ensures { crc_from 0 (octs4 result) ≡ crc_from (crc_from 0 (octs4 f)) (octs 8 v) }
{
    Four {
        a: f.b ^ f.a,
        b: f.c ^ (f.a >> 48),
        c: f.d ^ (f.a << 16),
        d: v ^ f.a,
    }
}

fn fold_four(f: Four, v: Four) -> Four
    ensures { crc_from 0 (octs4 result) ≡ crc_from (crc_from 0 (octs4 f)) (octs4 v) }
{
    fold(fold(fold(fold(f, v.a), v.b), v.c), v.d)
}

// The octets from i on as four words, the first of each the least significant.
fn low_four_at(s: &[u8], i: usize) -> Four
    requires { i + 32 ≤ length s.now }
    ensures { lows4 result ≡ take 32 (drop i s.now) }
{
    Four {
        a: words::low_at(s, i),
        b: words::low_at(s, i + 8),
        c: words::low_at(s, i + 16),
        d: words::low_at(s, i + 24),
    }
}

// Each word with its octets in the other order.
fn turned(f: Four) -> Four
    ensures { octs4 result ≡ lows4 f }
{
    Four {
        a: words::swapped(f.a),
        b: words::swapped(f.b),
        c: words::swapped(f.c),
        d: words::swapped(f.d),
    }
}

// The first four words, the register added to the first two octets.
fn first(register: u16, s: &[u8]) -> Four
    requires { 32 ≤ length s.now }
    ensures { crc_from 0 (lows4 result) ≡ crc_from register (take 32 s.now) }
{
    let f = low_four_at(s, 0);
    Four {
        a: f.a ^ words::swapped((register as u64) << 48),
        b: f.b,
        c: f.c,
        d: f.d,
    }
}

// The register after four words.
fn closed(f: Four) -> u16
    ensures { result ≡ crc_from 0 (octs4 f) }
{
    words::word_in(
        words::word_in(words::word_in(words::word_in(0, f.a), f.b), f.c),
        f.d,
    )
}

// The register after four words and 32 octets at a time from `from` on.
fn by_four(g: Four, s: &[u8], from: usize) -> Taken
    requires { from ≤ length s.now }
    ensures { Left s.now (crc_from (crc_from 0 (octs4 g)) (drop from s.now)) result.at result.register }
{
    let mut f = g;
    let mut i = from;
    while s.len() - i >= 32 {
        f = fold_four(f, turned(low_four_at(s, i)));
        i += 32;
    }
    Taken {
        register: closed(f),
        at: i,
    }
}

// ---- rows of four words, by G^64: it moves whole words, so that their octets may stand in either order

// Two rows added, word by word.
fn sum(x: Four, y: Four) -> Four
    ensures { lows4 result ≡ add_octets (lows4 x) (lows4 y) }
{
    Four {
        a: x.a ^ y.a,
        b: x.b ^ y.b,
        c: x.c ^ y.c,
        d: x.d ^ y.d,
    }
}

// The first row is struck out, and v taken in: as `fold`, four times as long.
fn fold_row(f: Sixteen, v: Four) -> Sixteen
    ensures { crc_from 0 (lows16 result) ≡ crc_from (crc_from 0 (lows16 f)) (lows4 v) }
{
    let a = f.a;
    let b = f.b;
    let c = f.c;
    let d = f.d;
    Sixteen {
        a: sum(b, a),
        b: sum(
            c,
            Four {
                a: 0,
                b: 0,
                c: 0,
                d: a.a,
            },
        ),
        c: sum(
            d,
            Four {
                a: a.b,
                b: a.c,
                c: a.d,
                d: 0,
            },
        ),
        d: sum(v, a),
    }
}

fn fold_two_rows(f: Sixteen, s: &[u8], i: usize) -> Sixteen
    requires { i + 64 ≤ length s.now }
    ensures { crc_from 0 (lows16 result) ≡ crc_from (crc_from 0 (lows16 f)) (take 64 (drop i s.now)) }
{
    fold_row(fold_row(f, low_four_at(s, i)), low_four_at(s, i + 32))
}

fn fold_four_rows(f: Sixteen, s: &[u8], i: usize) -> Sixteen
    requires { i + 128 ≤ length s.now }
    ensures { crc_from 0 (lows16 result) ≡ crc_from (crc_from 0 (lows16 f)) (take 128 (drop i s.now)) }
{
    fold_two_rows(fold_two_rows(f, s, i), s, i + 64)
}

// Sixteen words folded down to four.
fn down(f: Sixteen) -> Four
    ensures { crc_from 0 (octs4 result) ≡ crc_from 0 (lows16 f) }
{
    fold_four(
        fold_four(fold_four(turned(f.a), turned(f.b)), turned(f.c)),
        turned(f.d),
    )
}

// The words in hand after 128 octets at a time.
fn by_sixteen(register: u16, s: &[u8]) -> InHand
    requires { 128 ≤ length s.now }
    ensures { Left s.now (crc_from register s.now) result.at (crc_from 0 (octs4 result.words)) }
{
    let mut f = Sixteen {
        a: first(register, s),
        b: low_four_at(s, 32),
        c: low_four_at(s, 64),
        d: low_four_at(s, 96),
    };
    let mut i = 128;
    while s.len() - i >= 128 {
        f = fold_four_rows(f, s, i);
        i += 128;
    }
    InHand {
        words: down(f),
        at: i,
    }
}

// ---- both

// The words in hand after 32 octets, or, of many, after 128 at a time.
fn in_hand(register: u16, s: &[u8]) -> InHand
    requires { 32 ≤ length s.now }
    ensures { Left s.now (crc_from register s.now) result.at (crc_from 0 (octs4 result.words)) }
{
    if s.len() < 256 {
        return InHand {
            words: turned(first(register, s)),
            at: 32,
        };
    }
    by_sixteen(register, s)
}

// The register after all but the last octets: fewer than 32 are left.
pub(crate) fn front(register: u16, s: &[u8]) -> Taken
    ensures { Left s.now (crc_from register s.now) result.at result.register }
{
    if s.len() < 32 {
        return Taken { register, at: 0 };
    }
    let h = in_hand(register, s);
    let at = h.at;
    by_four(h.words, s, at)
}
