// The fields of the line protocol (docs/PROTOCOL.md): what those of a request say, and those that answers are made of.
//
// A line is found good as a whole before anything is run: each call that reads a field answers None where it is not of its kind.
#![tactic(auto)]

ghost use Rattle.std.specs.Prelude.{◌≡◌, ◌+◌, ltb, length, drop, unwrap_or, option_map, Some, None};
ghost use Rattle.text.specs.Pieces.{pick};
ghost use Rattle.std.specs.Iterator.{at_most};
ghost use Rattle.protocol_fields.specs.Cut.{piece_in, behind_in};

pub mod headers;
pub mod items;
pub mod show;

use ecss::{CreatorConfig, PusVersion};
use space_packet::{PacketType, SequenceFlags};

// ---- a line

// What a separator stands between in a text, as far as it is not read yet; None behind the last piece.
// The iterator of `split` has a closure in its type, which no signature can name.
#[derive(Clone, Copy)]
pub struct Pieces<'a> {
    rest: Option<&'a [u8]>,
    separator: u8,
}

impl<'a> Pieces<'a> {
    pub fn new(s: &'a [u8], separator: u8) -> Pieces<'a> {
        Pieces {
            rest: Some(s),
            separator,
        }
    }

    // The items of a list; `-` has none.
    pub fn list(s: &'a [u8]) -> Pieces<'a> {
        let mut items = Pieces::new(s, b';');
        if let b"-" = s {
            items.rest = None;
        }
        items
    }

    // These pieces, where each is one that `read` reads.
    pub fn checked<T: Drop, R: Fn(&[u8]) -> Option<T>>(self, read: R) -> Option<Pieces<'a>>
        requires { R.IsAlwaysCallable read }
    {
        for piece in self {
            let _ = read(piece)?;
        }
        Some(self)
    }

    // None where there is a piece more.
    pub fn end(&self) -> Option<()> {
        match self.rest {
            Some(_) => None,
            None => Some(()),
        }
    }
}

impl<'a> Iterator for Pieces<'a> {
    type Item = &'a [u8];

    ghost next_gives = { λ p piece q. (option_map (λ s. s.now) piece ≡ piece_in p.separator (option_map (λ s. s.now) p.rest)) × (option_map (λ s. s.now) q.rest ≡ behind_in p.separator (option_map (λ s. s.now) p.rest)) × (q.separator ≡ p.separator) };

    ghost remaining = { λ p. at_most (unwrap_or (option_map (λ s. length s.now + 1) p.rest) 0) };

    #[tactic(auto, unfolding(text::specs::Pieces::piece_of))]
    fn next(&mut self) -> Option<&'a [u8]> {
        let rest = self.rest?;
        let end = text::seek(rest, 0, self.separator);
        self.rest = behind(rest, end);
        Some(text::part(rest, 0, end))
    }
}

// What stands behind the separator at a place; None where the text ends there.
fn behind(s: &[u8], end: usize) -> Option<&[u8]>
    ensures { option_map (λ p. p.now) result ≡ pick (ltb end (length s.now)) (Some (drop (end + 1) s.now)) None }
{
    if end < s.len() {
        return Some(&s[end + 1..]);
    }
    None
}

// The two pieces of a text that has two.
pub fn pair(s: &[u8], separator: u8) -> Option<(&[u8], &[u8])> {
    let mut pieces = Pieces::new(s, separator);
    let pair = (pieces.next()?, pieces.next()?);
    pieces.end()?;
    Some(pair)
}

// ---- numbers

// A decimal that fits its type.
pub fn number<T: TryFrom<u64>>(s: &[u8]) -> Option<T>
where
    T::Error: Drop,
{
    T::try_from(text::number(s)?).ok()
}

pub fn flag(s: &[u8]) -> Option<bool> {
    match s {
        b"0" => Some(false),
        b"1" => Some(true),
        _ => None,
    }
}

pub(crate) fn packet_type(s: &[u8]) -> Option<PacketType> {
    match s {
        b"0" => Some(PacketType::Tm),
        b"1" => Some(PacketType::Tc),
        _ => None,
    }
}

pub(crate) fn seq_flags(s: &[u8]) -> Option<SequenceFlags> {
    match s {
        b"0" => Some(SequenceFlags::ContinuationSegment),
        b"1" => Some(SequenceFlags::FirstSegment),
        b"2" => Some(SequenceFlags::LastSegment),
        b"3" => Some(SequenceFlags::Unsegmented),
        _ => None,
    }
}

pub(crate) fn version(s: &[u8]) -> Option<PusVersion> {
    match s {
        b"0" => Some(PusVersion::EsaPus),
        b"1" => Some(PusVersion::PusA),
        b"2" => Some(PusVersion::PusC),
        _ => None,
    }
}

// ---- octets

// The octets that a field writes, at the start of room, and the room behind them.
pub fn octets<'a>(s: &[u8], room: &'a mut [u8]) -> Option<(&'a mut [u8], &'a mut [u8])> {
    let n = text::octets(s, room)?;
    room.split_at_mut_checked(n)
}

// ---- how a packet is made, read and finished

// set_ccsds_len has_checksum
pub fn config(fields: &mut Pieces<'_>) -> Option<CreatorConfig> {
    Some(CreatorConfig {
        set_ccsds_len: flag(fields.next()?)?,
        has_checksum: flag(fields.next()?)?,
    })
}

// MODE, how a packet is read.
#[derive(Clone, Copy, PartialEq, Eq)]
pub enum Mode {
    New,
    NoTable,
    NoVerify,
    NoCrc,
}

impl Mode {
    pub fn read(s: &[u8]) -> Option<Mode> {
        match s {
            b"new" => Some(Mode::New),
            b"nt" => Some(Mode::NoTable),
            b"noverify" => Some(Mode::NoVerify),
            b"nocrc" => Some(Mode::NoCrc),
            _ => None,
        }
    }

    // Whether the packet is taken to have a checksum.
    pub fn has_checksum(self) -> bool {
        self != Mode::NoCrc
    }
}

// FIN, how a reserved packet is finished.
#[derive(Clone, Copy, PartialEq, Eq)]
pub enum Fin {
    Finalize,
    NoTable,
    NoChecksum,
}

impl Fin {
    pub fn read(s: &[u8]) -> Option<Fin> {
        match s {
            b"f" => Some(Fin::Finalize),
            b"n" => Some(Fin::NoTable),
            b"c" => Some(Fin::NoChecksum),
            _ => None,
        }
    }
}
