// The reader that keeps the lent packet beside its two headers. Its calls are thin: each takes the reader apart and hands
// the octets on to a call that reads anew.
#![tactic(auto)]

ghost use Rattle.std.specs.Prelude.{◌≡◌};
ghost use Rattle.tc_read.specs.Read.{app_data_of};
ghost use Rattle.tc_compare.specs.Compare.{equals_creator, equals_reader};
ghost use Rattle.tc_held.specs.Held.{held_by, held_of};

use ecss::MessageTypeId;
use space_packet::SpHeader;
use tc_header::PusTcSecondaryHeader;
use tc_read::PusTcRecord;
use tc_write::PusTcCreator;

#[derive(Clone, Copy)]
pub struct PusTcReader<'a> {
    raw: &'a [u8],
    sp_header: SpHeader,
    sec_header: PusTcSecondaryHeader,
    has_checksum: bool,
}

impl<'a> PusTcReader<'a> {
    // Holds the packet that octets begin with. Where the read is refused it holds the empty part and the default headers, and
    // PusTcRecord::new_no_checksum_verification gives the number.
    pub fn new_no_checksum_verification(slice: &'a [u8], has_checksum: bool) -> PusTcReader<'a>
        ensures { held_by result ≡ held_of slice.now has_checksum }
    {
        let read = PusTcRecord::new_no_checksum_verification(slice, has_checksum);
        let (sp_header, sec_header) = match read {
            Ok(record) => (record.sp_header, record.sec_header),
            Err(_) => (
                SpHeader::default(),
                PusTcSecondaryHeader::new_simple(MessageTypeId::new(0, 0)),
            ),
        };
        PusTcReader {
            raw: tc_read::raw_data(slice, has_checksum),
            sp_header,
            sec_header,
            has_checksum,
        }
    }

    // The packet.
    pub fn raw_data(self) -> &'a [u8]
        ensures { result ≡ self.entry.raw }
    {
        self.raw
    }

    pub fn sp_header(self) -> SpHeader
        ensures { result ≡ self.entry.sp_header }
    {
        self.sp_header
    }

    pub fn sec_header(self) -> PusTcSecondaryHeader
        ensures { result ≡ self.entry.sec_header }
    {
        self.sec_header
    }

    // The application data, without a copy.
    pub fn app_data(self) -> &'a [u8]
        ensures { result.now ≡ app_data_of self.entry.raw.now self.entry.has_checksum }
    {
        tc_read::app_data(self.raw, self.has_checksum)
    }

    // Whether what is held is the creator's: both headers and the data.
    pub fn eq_creator(self, creator: PusTcCreator, data: &[u8]) -> bool
        ensures { result ≡ equals_creator self.entry.raw.now self.entry.has_checksum creator «data».now }
    {
        tc_compare::eq_creator(self.raw, self.has_checksum, creator, data)
    }

    // Whether two readers hold the same packet: by their raw octets only.
    pub fn eq_reader(self, other: PusTcReader<'_>) -> bool
        ensures { result ≡ equals_reader self.entry.raw.now self.entry.has_checksum other.entry.raw.now other.entry.has_checksum }
    {
        tc_compare::eq_reader(self.raw, self.has_checksum, other.raw, other.has_checksum)
    }
}
