// Telemetry that was read, compared with a creator and with each other: each call takes the octets and the choice of checksum, and
// reads anew.
#![tactic(auto)]

ghost use Rattle.std.specs.Prelude.{◌≡◌, ◌&&◌};
ghost use Rattle.space_packet.specs.Header.{same_header};
ghost use Rattle.ecss.specs.Frame.{was_read};
ghost use Rattle.tm_header.specs.Header.{same_sec};
ghost use Rattle.tm_read.specs.Read.{read_in};
ghost use Rattle.tm_compare.specs.Compare.{equals_creator_in, equals_reader_in};

use space_packet::CcsdsPacket;
use tm_read::PusTmRecord;
use tm_write::PusTmCreator;

// Whether what is read is the creator's: the time length, both headers, the time and the data.
#[tactic(auto, using(crate::proofs::Compared::parts))]
pub fn eq_creator(
    time_len: u8,
    slice: &[u8],
    has_checksum: bool,
    creator: PusTmCreator,
    time: &[u8],
    source_data: &[u8],
) -> bool
    ensures { result ≡ equals_creator_in time_len slice.now has_checksum creator time.now source_data.now }
{
    let Ok(read) = PusTmRecord::new_no_checksum_verification(time_len, slice, has_checksum) else {
        return false;
    };
    time_len == creator.time_len()
        && same_headers(read, creator)
        && tm_read::timestamp(time_len, slice, has_checksum) == time
        && tm_read::source_data(time_len, slice, has_checksum) == source_data
}

// Whether both headers are the creator's.
#[tactic(auto, using(crate::proofs::Compared::parts))]
fn same_headers(read: PusTmRecord, creator: PusTmCreator) -> bool
    ensures { result ≡ (same_header read.sp_header creator.sp_header && same_sec read.sec_header creator.sec_header) }
{
    read.sp_header == creator.sp_header() && read.sec_header == creator.sec_header()
}

fn is_read(time_len: u8, slice: &[u8], has_checksum: bool) -> bool
    ensures { result ≡ was_read (read_in time_len slice.now has_checksum) }
{
    PusTmRecord::new_no_checksum_verification(time_len, slice, has_checksum).is_ok()
}

// Whether two readers hold the same packet: by their raw octets only.
#[tactic(auto, using(crate::proofs::Compared::parts))]
pub fn eq_reader(
    time_len: u8,
    slice: &[u8],
    has_checksum: bool,
    other: &[u8],
    other_has_checksum: bool,
) -> bool
    ensures { result ≡ equals_reader_in time_len slice.now has_checksum other.now other_has_checksum }
{
    is_read(time_len, slice, has_checksum)
        && is_read(time_len, other, other_has_checksum)
        && tm_read::raw_data(time_len, slice, has_checksum)
            == tm_read::raw_data(time_len, other, other_has_checksum)
}
