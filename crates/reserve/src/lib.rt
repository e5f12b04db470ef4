// A packet whose headers stand in a buffer and whose data is filled in there: a reservation by value, the buffer lent again
// to each call. Each call takes the octet at which the data of its kind starts. A reservation that does not hold together is 8;
// then, where a buffer is lent, 1.
#![tactic(auto, unfolding(space_packet::specs::Answer::and_then, space_packet::specs::Answer::refuse_if))]

ghost use Rattle.space_packet.specs.Answer.{answer_of};
ghost use Rattle.std.specs.Prelude.{◌≡◌, length};
ghost use Rattle.space_packet.specs.Part.{beyond};
ghost use Rattle.space_packet.specs.Wrote.{Wrote};
ghost use Rattle.reserve.specs.Reserve.{holds, holds_in, data_len_of, bounds_of, within, begins_at, fill_in, filled_by, finish_in, finished, bare_in};

use ecss::frame;
use space_packet::{ByteConversionError, PusError};

#[derive(Clone, Copy, PartialEq, Eq)]
pub struct Reservation {
    // The octet at which the data starts.
    pub start: usize,
    // The octets of the whole packet.
    pub total: usize,
    pub has_checksum: bool,
}

// The octets from `start` up to `end`.
#[derive(Clone, Copy, PartialEq, Eq)]
pub struct Bounds {
    pub start: usize,
    pub end: usize,
}

impl Reservation {
    // 8 where the reservation does not hold together.
    #[tactic(auto, unfolding(space_packet::specs::Answer::refuse_if, crate::specs::Reserve::holds))]
    fn check(self, start: usize) -> Result<(), PusError>
        ensures { answer_of result ≡ holds start self }
    {
        if self.start != start {
            return Err(PusError::Reservation);
        }
        if self.total < start {
            return Err(PusError::Reservation);
        }
        if self.total - start < frame::trailer_len(self.has_checksum) {
            return Err(PusError::Reservation);
        }
        if ecss_write::MAX_TOTAL < self.total {
            return Err(PusError::Reservation);
        }
        Ok(())
    }

    // 8, then 1 where a buffer of `found` octets has no room for it.
    #[tactic(auto, unfolding(space_packet::specs::Answer::and_then, space_packet::specs::Answer::refuse_if, crate::specs::Reserve::holds_in))]
    fn check_in(self, start: usize, found: usize) -> Result<(), PusError>
        ensures { answer_of result ≡ holds_in start self found }
    {
        self.check(start)?;
        if found < self.total {
            return Err(PusError::ByteConversion(ByteConversionError::ToSliceTooSmall {
                found,
                expected: self.total,
            }));
        }
        Ok(())
    }

    // How long the data is.
    pub fn data_len(self, start: usize) -> Result<usize, PusError>
        ensures { answer_of result ≡ data_len_of start self }
    {
        self.check(start)?;
        Ok(self.total - frame::trailer_len(self.has_checksum) - self.start)
    }

    // Where the data lies in a buffer of `found` octets.
    pub fn bounds(self, start: usize, found: usize) -> Result<Bounds, PusError>
        ensures { answer_of result ≡ bounds_of start self found }
    {
        self.check_in(start, found)?;
        Ok(Bounds {
            start: self.start,
            end: self.total - frame::trailer_len(self.has_checksum),
        })
    }

    // The data, to be read; the empty part where it is refused.
    pub fn part(self, start: usize, buf: &[u8]) -> &[u8]
        ensures result_value { result.now ≡ within (bounds_of start self (length buf.now)) buf.now }
        ensures ref_ptr_value { result.ref_ptr ≡ beyond (begins_at (bounds_of start self (length buf.now))) buf.entry.ref_ptr }
    {
        match self.bounds(start, buf.len()) {
            Err(_) => &buf[..0],
            Ok(at) => &buf[at.start..at.end],
        }
    }

    // The data, to be written; the empty part where it is refused. The buffer is lent on with the part, so no contract can
    // say what the rest of it holds, nor what a refused call leaves in it: `fill` has every octet fixed.
    pub fn part_mut(self, start: usize, buf: &mut [u8]) -> &mut [u8]
        ensures result_value { result.now ≡ within (bounds_of start self (length buf.old)) buf.old }
        ensures ref_ptr_value { result.ref_ptr ≡ beyond (begins_at (bounds_of start self (length buf.old))) buf.entry.ref_ptr }
    {
        match self.bounds(start, buf.len()) {
            Err(_) => &mut buf[..0],
            Ok(at) => &mut buf[at.start..at.end],
        }
    }

    // Lends the buffer's middle on to be filled with `data` from its start; 1 where there is more data than was reserved.
    #[tactic(auto, unfolding(space_packet::specs::Answer::and_then, crate::specs::Reserve::fill_in))]
    pub fn fill(self, start: usize, data: &[u8], buf: &mut [u8]) -> Result<usize, PusError>
        ensures { (answer_of result ≡ fill_in start self (length buf.old) (length «data».now)) × (buf.new ≡ filled_by (fill_in start self (length buf.old) (length «data».now)) start «data».now buf.old) }
    {
        let at = self.bounds(start, buf.len())?;
        ecss_write::fill(&mut buf[at.start..at.end], data)
    }

    // Writes the checksum, where there is one, over what the buffer holds; the answer is the total.
    #[tactic(auto, unfolding(space_packet::specs::Answer::and_then, crate::specs::Reserve::finish_in))]
    pub fn finalize(self, start: usize, buf: &mut [u8]) -> Result<usize, PusError>
        ensures { Wrote (finish_in start self (length buf.old)) (finished self buf.old) buf.old result buf.new }
    {
        self.check_in(start, buf.len())?;
        if self.has_checksum {
            return ecss_write::seal(start, self.total - 2 - self.start, buf);
        }
        Ok(self.total)
    }

    // Writes nothing; the answer is the total less the checksum's place.
    #[tactic(auto, unfolding(space_packet::specs::Answer::and_then, crate::specs::Reserve::bare_in))]
    pub fn finalize_no_checksum(self, start: usize, buf: &[u8]) -> Result<usize, PusError>
        ensures { answer_of result ≡ bare_in start self (length buf.now) }
    {
        self.check_in(start, buf.len())?;
        Ok(self.total - frame::trailer_len(self.has_checksum))
    }
}
