// Telecommands whose application data is filled in their buffer, after ECSS-E-ST-70-41C and, for PUS A, ECSS-E-70-41A.
#![tactic(auto, unfolding(space_packet::specs::Answer::and_then))]

ghost use Rattle.std.specs.Prelude.{◌≡◌, length};
ghost use Rattle.space_packet.specs.Answer.{answer_of};
ghost use Rattle.space_packet.specs.Part.{beyond};
ghost use Rattle.space_packet.specs.Wrote.{Wrote};
ghost use Rattle.ecss.specs.Kind.{start_of};
ghost use Rattle.reserve.specs.Reserve.{data_len_of, bounds_of, within, begins_at, fill_in, filled_by, finish_in, finished, bare_in};
ghost use Rattle.tc_header.specs.Header.{tc};
ghost use Rattle.tc_reserved.specs.Reserved.{reserve_in, reserve_of, reserved_left_in, reserved_left};

use ecss::{PusError, frame};
use ecss_write::packet;
use reserve::{Bounds, Reservation};
use space_packet::{PacketType, SpHeader};
use tc_header::{PusTcSecondaryHeader, TcForm};

// A reservation by value, with its form; the buffer is lent again to each call. Finishing and borrowing are refused with 8, then
// 1, and the data's length with 8 alone; 8 too where the reservation does not start at the form's data.
#[derive(Clone, Copy, PartialEq, Eq)]
pub struct PusTcCreatorWithReservedAppData {
    held: Reservation,
    form: TcForm,
}

impl PusTcCreatorWithReservedAppData {
    // Writes octets 0 to 10; 7, 6 for the machine size, 1, 6 for the packet limit, 3.
    pub fn new(
        buf: &mut [u8],
        sp_header: SpHeader,
        sec_header: PusTcSecondaryHeader,
        app_data_len: usize,
        has_checksum: bool,
    ) -> Result<PusTcCreatorWithReservedAppData, PusError>
        ensures { (answer_of result ≡ reserve_of sp_header sec_header app_data_len has_checksum (length buf.old)) × (buf.new ≡ reserved_left sp_header sec_header app_data_len has_checksum buf.old) }
    {
        PusTcCreatorWithReservedAppData::new_in(
            TcForm::PUS_C,
            buf,
            sp_header,
            sec_header,
            app_data_len,
            has_checksum,
        )
    }

    // Writes the octets before the data; 32, 19, 7, 6 for the machine size, 1, 6 for the packet limit, 3.
    pub fn new_in(
        form: TcForm,
        buf: &mut [u8],
        sp_header: SpHeader,
        sec_header: PusTcSecondaryHeader,
        app_data_len: usize,
        has_checksum: bool,
    ) -> Result<PusTcCreatorWithReservedAppData, PusError>
        ensures { (answer_of result ≡ reserve_in form sp_header sec_header app_data_len has_checksum (length buf.old)) × (buf.new ≡ reserved_left_in form sp_header sec_header app_data_len has_checksum buf.old) }
    {
        let mut sec = [0u8; TcForm::MAX_SEC_HEADER_LEN];
        let _ = sec_header.write_to_slice_in(form, &mut sec);
        let total = packet::reserve(
            tc_write::asks(form, sec_header),
            packet::as_type(sp_header, PacketType::Tc),
            frame::front(&sec, form.sec_header_len()),
            app_data_len,
            has_checksum,
            buf,
        )?;
        Ok(PusTcCreatorWithReservedAppData {
            held: Reservation {
                start: form.min_len_without_app_data(),
                total,
                has_checksum,
            },
            form,
        })
    }

    pub fn form(self) -> TcForm
        ensures { result ≡ self.form }
    {
        self.form
    }

    // The length of the whole packet.
    pub fn len_written(self) -> usize
        ensures { result ≡ self.held.total }
    {
        self.held.total
    }

    // The length of the data; 8.
    pub fn app_data_len(self) -> Result<usize, PusError>
        ensures { answer_of result ≡ data_len_of (start_of (tc self.form)) self.held }
    {
        self.held.data_len(self.form.min_len_without_app_data())
    }

    // Where the data lies in a buffer of `found` octets.
    pub fn app_data_bounds(self, found: usize) -> Result<Bounds, PusError>
        ensures { answer_of result ≡ bounds_of (start_of (tc self.form)) self.held found }
    {
        self.held
            .bounds(self.form.min_len_without_app_data(), found)
    }

    // The data, to be read; the empty part where it is refused.
    pub fn app_data(self, buf: &[u8]) -> &[u8]
        ensures result_value { result.now ≡ within (bounds_of (start_of (tc self.form)) self.held (length buf.now)) buf.now }
        ensures ref_ptr_value { result.ref_ptr ≡ beyond (begins_at (bounds_of (start_of (tc self.form)) self.held (length buf.now))) buf.entry.ref_ptr }
    {
        self.held.part(self.form.min_len_without_app_data(), buf)
    }

    // The data, to be written; the empty part where it is refused. The buffer is lent on with the part, so no contract can
    // say what the rest of it holds, nor what a refused call leaves in it: `fill_app_data` has every octet fixed.
    pub fn app_data_mut(self, buf: &mut [u8]) -> &mut [u8]
        ensures result_value { result.now ≡ within (bounds_of (start_of (tc self.form)) self.held (length buf.old)) buf.old }
        ensures ref_ptr_value { result.ref_ptr ≡ beyond (begins_at (bounds_of (start_of (tc self.form)) self.held (length buf.old))) buf.entry.ref_ptr }
    {
        self.held
            .part_mut(self.form.min_len_without_app_data(), buf)
    }

    // Fills the data in from its start; the octets before it and after it stay as they are.
    pub fn fill_app_data(self, data: &[u8], buf: &mut [u8]) -> Result<usize, PusError>
        ensures { (answer_of result ≡ fill_in (start_of (tc self.form)) self.held (length buf.old) (length «data».now)) × (buf.new ≡ filled_by (fill_in (start_of (tc self.form)) self.held (length buf.old) (length «data».now)) (start_of (tc self.form)) «data».now buf.old) }
    {
        self.held
            .fill(self.form.min_len_without_app_data(), data, buf)
    }

    // Writes the checksum, where there is one, and answers the total.
    pub fn finalize(self, buf: &mut [u8]) -> Result<usize, PusError>
        ensures { Wrote (finish_in (start_of (tc self.form)) self.held (length buf.old)) (finished self.held buf.old) buf.old result buf.new }
    {
        self.held
            .finalize(self.form.min_len_without_app_data(), buf)
    }

    pub fn finalize_checksum_no_table(self, buf: &mut [u8]) -> Result<usize, PusError>
        ensures { Wrote (finish_in (start_of (tc self.form)) self.held (length buf.old)) (finished self.held buf.old) buf.old result buf.new }
    {
        self.finalize(buf)
    }

    // Writes nothing, and answers the total less the checksum's place.
    pub fn finalize_no_checksum(self, buf: &[u8]) -> Result<usize, PusError>
        ensures { answer_of result ≡ bare_in (start_of (tc self.form)) self.held (length buf.now) }
    {
        self.held
            .finalize_no_checksum(self.form.min_len_without_app_data(), buf)
    }
}
