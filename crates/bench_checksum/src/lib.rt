// What the benchmark links: the checksum in its two forms, for a caller in C.
#![tactic(auto)]

ghost use Rattle.std.specs.Prelude.{◌≡◌};
ghost use Rattle.crc_register.specs.Crc.{crc_of};

#[unsafe(no_mangle)]
pub extern "C" fn port_table(data: &[u8]) -> usize
    ensures { result ≡ crc_of «data».now }
{
    crc::crc_ccitt_false(data) as usize
}

#[unsafe(no_mangle)]
pub extern "C" fn port_no_table(data: &[u8]) -> usize
    ensures { result ≡ crc_of «data».now }
{
    crc::crc_ccitt_false_no_table(data) as usize
}
