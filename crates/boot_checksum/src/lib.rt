// What a boot image links: the checksum by the table of 16 entries, whole and in parts, for a caller in C (boot/checksum.h).
#![tactic(auto)]

ghost use Rattle.std.specs.Prelude.{◌≡◌};
ghost use Rattle.crc_register.specs.Crc.{crc_from, crc_of};

#[unsafe(no_mangle)]
pub extern "C" fn crc_ccitt_false(data: &[u8]) -> u16
    ensures { result ≡ crc_of «data».now }
{
    crc::crc_ccitt_false(data)
}

// The register after more octets: a checksum in parts begins at FFFF, and its last register is the checksum.
#[unsafe(no_mangle)]
pub extern "C" fn crc_ccitt_false_from(register: u16, data: &[u8]) -> u16
    ensures { result ≡ crc_from register «data».now }
{
    crc_register::table_from(register, data)
}
