// The register by words: eight, four and two octets are taken in at once, with no table.
ghost use Rattle.std.specs.Prelude.{◌≡◌, [], ◌∷◌, ◌+◌, ◌≤◌, ◌<◌, length, take, drop};
ghost use Rattle.crc_register.specs.Crc.{crc_from};
ghost use Rattle.crc_fold.specs.Word.{octs, lows};

// The word of eight octets, the first the most significant. The sum is balanced: the compiler sees no load of eight
// octets in a longer chain.
fn join(a: u8, b: u8, c: u8, d: u8, e: u8, f: u8, g: u8, h: u8) -> u64
    ensures { octs 8 result ≡ a ∷ b ∷ c ∷ d ∷ e ∷ f ∷ g ∷ h ∷ [] }
{
    (((a as u64) * 72057594037927936 + (b as u64) * 281474976710656)
        + ((c as u64) * 1099511627776 + (d as u64) * 4294967296))
        + (((e as u64) * 16777216 + (f as u64) * 65536) + ((g as u64) * 256 + (h as u64)))
}

// The octets from i on as a word, the first the least significant: one load.
pub(crate) fn low_at(s: &[u8], i: usize) -> u64
    requires { i + 8 ≤ length s.now }
    ensures { lows result ≡ take 8 (drop i s.now) }
{
    join(
        s[i + 7],
        s[i + 6],
        s[i + 5],
        s[i + 4],
        s[i + 3],
        s[i + 2],
        s[i + 1],
        s[i],
    )
}

// The word with its octets in the other order.
pub(crate) fn swapped(w: u64) -> u64
    ensures { (octs 8 result ≡ lows w) × (lows result ≡ octs 8 w) }
{
    join(
        (w % 256) as u8,
        (w / 256 % 256) as u8,
        (w / 65536 % 256) as u8,
        (w / 16777216 % 256) as u8,
        (w / 4294967296 % 256) as u8,
        (w / 1099511627776 % 256) as u8,
        (w / 281474976710656 % 256) as u8,
        (w / 72057594037927936 % 256) as u8,
    )
}

// What a word leaves of an empty register. The quotient of its division by the generator comes by squaring: with y for
// the shifts by 4, 11 and 16 added, (1 + y)(1 + y)(1 + y^2)(1 + y^4)(1 + y^8) = 1 + y^16, which is 1 on 64 bits.
fn reduced(w: u64) -> u16
    ensures { result ≡ crc_from 0 (octs 8 w) }
{
    let p = w ^ ((w >> 4) ^ (w >> 11) ^ (w >> 16));
    let q = p ^ ((p >> 8) ^ (p >> 22) ^ (p >> 32));
    let t = q ^ ((q >> 16) ^ (q >> 44));
    let u = t ^ (t >> 32);
    ((u ^ (u << 5) ^ (u << 12)) % 65536) as u16
}

// The register after the eight octets of a word: it is added to the first two.
pub(crate) fn word_in(r: u16, w: u64) -> u16
    ensures { result ≡ crc_from r (octs 8 w) }
{
    reduced(w ^ ((r as u64) << 48))
}

// The register after four octets, and after two.
fn four_in(r: u16, s: &[u8], i: usize) -> u16
    requires { i + 4 ≤ length s.now }
    ensures { result ≡ crc_from r (take 4 (drop i s.now)) }
{
    reduced(join(0, 0, 0, 0, s[i], s[i + 1], s[i + 2], s[i + 3]) ^ ((r as u64) << 16))
}

fn two_in(r: u16, s: &[u8], i: usize) -> u16
    requires { i + 2 ≤ length s.now }
    ensures { result ≡ crc_from r (take 2 (drop i s.now)) }
{
    reduced(join(0, 0, 0, 0, 0, 0, s[i], s[i + 1]) ^ (r as u64))
}

// The register after the octets from i on, of which there are fewer than two; four; eight.
fn below_two(r: u16, s: &[u8], i: usize) -> u16
    requires { (i ≤ length s.now) × (length s.now < i + 2) }
    ensures { result ≡ crc_from r (drop i s.now) }
{
    if i < s.len() {
        return crc_register::no_table_octet(r, s[i]);
    }
    r
}

fn below_four(r: u16, s: &[u8], i: usize) -> u16
    requires { (i ≤ length s.now) × (length s.now < i + 4) }
    ensures { result ≡ crc_from r (drop i s.now) }
{
    if s.len() - i >= 2 {
        return below_two(two_in(r, s, i), s, i + 2);
    }
    below_two(r, s, i)
}

fn below_eight(r: u16, s: &[u8], i: usize) -> u16
    requires { (i ≤ length s.now) × (length s.now < i + 8) }
    ensures { result ≡ crc_from r (drop i s.now) }
{
    if s.len() - i >= 4 {
        return below_four(four_in(r, s, i), s, i + 4);
    }
    below_four(r, s, i)
}

// The register after the octets from `from` on, eight at a time.
pub(crate) fn stepped(register: u16, s: &[u8], from: usize) -> u16
    requires { from ≤ length s.now }
    ensures { result ≡ crc_from register (drop from s.now) }
{
    let mut r = register;
    let mut i = from;
    while s.len() - i >= 8 {
        r = word_in(r, swapped(low_at(s, i)));
        i += 8;
    }
    below_eight(r, s, i)
}
