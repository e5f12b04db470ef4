// Telemetry whose source data is filled in its buffer, after ECSS-E-ST-70-41C.
#![tactic(auto, unfolding(space_packet::specs::Answer::and_then))]

ghost use Rattle.std.specs.Prelude.{◌≡◌, length};
ghost use Rattle.space_packet.specs.Answer.{answer_of};
ghost use Rattle.space_packet.specs.Part.{beyond};
ghost use Rattle.space_packet.specs.Wrote.{Wrote};
ghost use Rattle.ecss.specs.Kind.{start_of};
ghost use Rattle.reserve.specs.Reserve.{data_len_of, bounds_of, within, begins_at, fill_in, filled_by, finish_in, finished, bare_in};
ghost use Rattle.tm_header.specs.Header.{timed, tm};
ghost use Rattle.tm_reserved.specs.Reserved.{reserve_of, reserved_left};

use ecss::{PusError, frame};
use ecss_write::packet;
use reserve::{Bounds, Reservation};
use space_packet::{PacketType, SpHeader};
use tm_header::{MAX_SEC_HEADER_LEN, PusTmSecondaryHeader};

// A reservation by value, with the mission's time length; the buffer is lent again to each call. Finishing and borrowing are refused
// with 8, then 1, and the data's length with 8 alone; 8 too where the reservation does not start behind that time.
#[derive(Clone, Copy, PartialEq, Eq)]
pub struct PusTmCreatorWithReservedSourceData {
    held: Reservation,
    time_len: u8,
}

impl PusTmCreatorWithReservedSourceData {
    // Writes the octets before the data; 14, 7, 6 for the machine size, 1, 6 for the packet limit, 3.
    pub fn new(
        time_len: u8,
        buf: &mut [u8],
        sp_header: SpHeader,
        sec_header: PusTmSecondaryHeader,
        time: &[u8],
        source_data_len: usize,
        has_checksum: bool,
    ) -> Result<PusTmCreatorWithReservedSourceData, PusError>
        ensures { (answer_of result ≡ reserve_of time_len sp_header (timed sec_header time.now) source_data_len has_checksum (length buf.old)) × (buf.new ≡ reserved_left time_len sp_header (timed sec_header time.now) source_data_len has_checksum buf.old) }
    {
        let mut sec = [0u8; MAX_SEC_HEADER_LEN];
        let _ = sec_header.write_to_slice(time_len, time, &mut sec);
        let total = packet::reserve(
            tm_write::asks(time_len, sec_header, time),
            packet::as_type(sp_header, PacketType::Tm),
            frame::front(&sec, tm_header::sec_header_len(time_len)),
            source_data_len,
            has_checksum,
            buf,
        )?;
        Ok(PusTmCreatorWithReservedSourceData {
            held: Reservation {
                start: tm_header::min_len_without_source_data(time_len),
                total,
                has_checksum,
            },
            time_len,
        })
    }

    pub fn time_len(self) -> u8
        ensures { result ≡ self.time_len }
    {
        self.time_len
    }

    // The octet at which the data of this time length starts.
    fn start(self) -> usize
        ensures { result ≡ start_of (tm self.time_len) }
    {
        tm_header::min_len_without_source_data(self.time_len)
    }

    // The length of the whole packet.
    pub fn len_written(self) -> usize
        ensures { result ≡ self.held.total }
    {
        self.held.total
    }

    // The length of the data; 8.
    pub fn source_data_len(self) -> Result<usize, PusError>
        ensures { answer_of result ≡ data_len_of (start_of (tm self.time_len)) self.held }
    {
        self.held.data_len(self.start())
    }

    // Where the data lies in a buffer of `found` octets.
    pub fn source_data_bounds(self, found: usize) -> Result<Bounds, PusError>
        ensures { answer_of result ≡ bounds_of (start_of (tm self.time_len)) self.held found }
    {
        self.held.bounds(self.start(), found)
    }

    // The data, to be read; the empty part where it is refused.
    pub fn source_data(self, buf: &[u8]) -> &[u8]
        ensures result_value { result.now ≡ within (bounds_of (start_of (tm self.time_len)) self.held (length buf.now)) buf.now }
        ensures ref_ptr_value { result.ref_ptr ≡ beyond (begins_at (bounds_of (start_of (tm self.time_len)) self.held (length buf.now))) buf.entry.ref_ptr }
    {
        self.held.part(self.start(), buf)
    }

    // The data, to be written; the empty part where it is refused. The buffer is lent on with the part, so no contract can
    // say what the rest of it holds, nor what a refused call leaves in it: `fill_source_data` has every octet fixed.
    pub fn source_data_mut(self, buf: &mut [u8]) -> &mut [u8]
        ensures result_value { result.now ≡ within (bounds_of (start_of (tm self.time_len)) self.held (length buf.old)) buf.old }
        ensures ref_ptr_value { result.ref_ptr ≡ beyond (begins_at (bounds_of (start_of (tm self.time_len)) self.held (length buf.old))) buf.entry.ref_ptr }
    {
        self.held.part_mut(self.start(), buf)
    }

    // Fills the data in from its start; the octets before it and after it stay as they are.
    pub fn fill_source_data(self, data: &[u8], buf: &mut [u8]) -> Result<usize, PusError>
        ensures { (answer_of result ≡ fill_in (start_of (tm self.time_len)) self.held (length buf.old) (length «data».now)) × (buf.new ≡ filled_by (fill_in (start_of (tm self.time_len)) self.held (length buf.old) (length «data».now)) (start_of (tm self.time_len)) «data».now buf.old) }
    {
        self.held.fill(self.start(), data, buf)
    }

    // Writes the checksum, where there is one, and answers the total.
    pub fn finalize(self, buf: &mut [u8]) -> Result<usize, PusError>
        ensures { Wrote (finish_in (start_of (tm self.time_len)) self.held (length buf.old)) (finished self.held buf.old) buf.old result buf.new }
    {
        self.held.finalize(self.start(), buf)
    }

    pub fn finalize_checksum_no_table(self, buf: &mut [u8]) -> Result<usize, PusError>
        ensures { Wrote (finish_in (start_of (tm self.time_len)) self.held (length buf.old)) (finished self.held buf.old) buf.old result buf.new }
    {
        self.finalize(buf)
    }

    // Writes nothing, and answers the total less the checksum's place.
    pub fn finalize_no_checksum(self, buf: &[u8]) -> Result<usize, PusError>
        ensures { answer_of result ≡ bare_in (start_of (tm self.time_len)) self.held (length buf.now) }
    {
        self.held.finalize_no_checksum(self.start(), buf)
    }
}
