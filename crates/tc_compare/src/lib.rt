// Telecommands that were read, compared with a creator and with each other: each call takes the octets and the choice of
// checksum, and reads anew, as PUS C or, where it ends in `_in`, in the form that is named.
#![tactic(auto)]

ghost use Rattle.std.specs.Prelude.{◌≡◌, ◌&&◌};
ghost use Rattle.space_packet.specs.Header.{same_header};
ghost use Rattle.tc_header.specs.Header.{same_sec};
ghost use Rattle.ecss.specs.Frame.{was_read};
ghost use Rattle.tc_read.specs.Read.{read_in};
ghost use Rattle.tc_compare.specs.Compare.{equals_creator_in, equals_creator, equals_reader_in, equals_reader};

use space_packet::CcsdsPacket;
use tc_header::TcForm;
use tc_read::PusTcRecord;
use tc_write::PusTcCreator;

// Whether what is read is the creator's: both headers and the data.
pub fn eq_creator(slice: &[u8], has_checksum: bool, creator: PusTcCreator, data: &[u8]) -> bool
    ensures { result ≡ equals_creator slice.now has_checksum creator «data».now }
{
    eq_creator_in(TcForm::PUS_C, slice, has_checksum, creator, data)
}

#[tactic(auto, using(crate::proofs::Compared::comparing))]
pub fn eq_creator_in(
    form: TcForm,
    slice: &[u8],
    has_checksum: bool,
    creator: PusTcCreator,
    data: &[u8],
) -> bool
    ensures { result ≡ equals_creator_in form slice.now has_checksum creator «data».now }
{
    let Ok(record) = PusTcRecord::new_no_checksum_verification_in(form, slice, has_checksum) else {
        return false;
    };
    same_headers(record, creator) && tc_read::app_data_in(form, slice, has_checksum) == data
}

#[tactic(auto, using(crate::proofs::Compared::comparing))]
fn same_headers(reported: PusTcRecord, creator: PusTcCreator) -> bool
    ensures { result ≡ (same_header reported.sp_header creator.sp_header && same_sec reported.sec_header creator.sec_header) }
{
    reported.sp_header == creator.sp_header() && reported.sec_header == creator.sec_header()
}

fn is_read(form: TcForm, slice: &[u8], has_checksum: bool) -> bool
    ensures { result ≡ was_read (read_in form slice.now has_checksum) }
{
    PusTcRecord::new_no_checksum_verification_in(form, slice, has_checksum).is_ok()
}

// Whether two readers hold the same packet: by their raw octets only.
pub fn eq_reader(slice: &[u8], has_checksum: bool, other: &[u8], other_has_checksum: bool) -> bool
    ensures { result ≡ equals_reader slice.now has_checksum other.now other_has_checksum }
{
    eq_reader_in(
        TcForm::PUS_C,
        slice,
        has_checksum,
        other,
        other_has_checksum,
    )
}

#[tactic(auto, using(crate::proofs::Compared::comparing))]
pub fn eq_reader_in(
    form: TcForm,
    slice: &[u8],
    has_checksum: bool,
    other: &[u8],
    other_has_checksum: bool,
) -> bool
    ensures { result ≡ equals_reader_in form slice.now has_checksum other.now other_has_checksum }
{
    if !is_read(form, slice, has_checksum) || !is_read(form, other, other_has_checksum) {
        return false;
    }
    let raw = tc_read::raw_data_in(form, slice, has_checksum);
    let other_raw = tc_read::raw_data_in(form, other, other_has_checksum);
    raw == other_raw
}
