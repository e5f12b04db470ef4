// The packet error control of ECSS-E-ST-70-41C, annex B: the checksum that the Rust takes from its crate `crc` as
// CRC_16_IBM_3740, with a table of 16 entries and with none. No call refuses anything.
#![tactic(auto)]

ghost use Rattle.std.specs.Prelude.{◌≡◌, []};
ghost use Rattle.crc_register.specs.Crc.{crc_of};
ghost use Rattle.crc.specs.Digest.{digest_of, taken, checksum_held};

// The checksum of the octets, by the table.
pub fn crc_ccitt_false(data: &[u8]) -> u16
    ensures { result ≡ crc_of «data».now }
{
    crc_register::table_from(0xFFFF, data)
}

// The same number with no table.
pub fn crc_ccitt_false_no_table(data: &[u8]) -> u16
    ensures { result ≡ crc_of «data».now }
{
    crc_fold::no_table_from(0xFFFF, data)
}

// A checksum on its way: the octets come in several parts, and either form may take each.
#[derive(Clone, Copy)]
pub struct Digest {
    register: u16,
}

impl Digest {
    // No octets taken yet.
    pub fn new() -> Self
        ensures { result ≡ digest_of [] }
    {
        Digest { register: 0xFFFF }
    }

    // The octets are taken in by the table.
    pub fn update(self, data: &[u8]) -> Self
        ensures { result ≡ taken self «data».now }
    {
        Digest {
            register: crc_register::table_from(self.register, data),
        }
    }

    // The same with no table.
    pub fn update_no_table(self, data: &[u8]) -> Self
        ensures { result ≡ taken self «data».now }
    {
        Digest {
            register: crc_fold::no_table_from(self.register, data),
        }
    }

    // The checksum of all that was taken.
    pub fn finalize(self) -> u16
        ensures { result ≡ checksum_held self }
    {
        self.register
    }
}
