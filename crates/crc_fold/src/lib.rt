// The checksum's register with no table: long rows of octets are folded, what is left is taken in by words.
#![tactic(auto)]

mod folded; // folded.rt: long rows of octets, by folding
mod words; // words.rt: eight, four and two octets at once

ghost use Rattle.std.specs.Prelude.{◌≡◌};
ghost use Rattle.crc_register.specs.Crc.{crc_from};

// The register after the octets, with no table: every table-free call comes here. Each function below has one caller,
// so that the compiler makes one piece of them.
pub fn no_table_from(register: u16, data: &[u8]) -> u16
    ensures { result ≡ crc_from register «data».now }
{
    let t = folded::front(register, data);
    let at = t.at;
    words::stepped(t.register, data, at)
}
