// The checksum's register, octet by octet: by a table of 16 entries, and by shifts.
#![tactic(auto)]

ghost use Rattle.std.specs.Prelude.{◌≡◌, ◌<◌};
ghost use Rattle.crc_register.specs.Crc.{run, octet_bits, crc_from};
ghost use Rattle.crc_register.specs.Table.{half_bits, entry};

// The register after the octets, by the table.
#[tactic(auto, using(crate::proofs::Linear::by_octets))]
pub fn table_from(register: u16, data: &[u8]) -> u16
    ensures { result ≡ crc_from register «data».now }
{
    let mut r = register;
    for octet in data {
        r = table_octet(r, *octet);
    }
    r
}

// The register after one octet: the table is used for its high half, and then for its low half.
#[tactic(auto, using(crate::proofs::Octet::octet_halves))]
fn table_octet(r: u16, b: u8) -> u16
    ensures { result ≡ run r (octet_bits b) }
{
    table_half(table_half(r, b / 16), b % 16)
}

// The register after half an octet: its low twelve bits move up, and the table has what its highest four and the half leave.
fn table_half(r: u16, h: u8) -> u16
    requires { h < 16 }
    ensures { result ≡ run r (half_bits h) }
{
    (r << 4) ^ table_entry((r >> 12) ^ u16::from(h))
}

// The table: entry k is what four zero bits make of a register whose highest four bits are k and whose others are 0. Of these
// arms the compiler makes one multiplication; an array was tried, and takes 32 read-only octets, where a boot image wants none.
#[tactic(auto, using(crate::proofs::Entries::entry_product))]
fn table_entry(k: u16) -> u16
    requires { k < 16 }
    ensures { result ≡ entry k }
{
    match k {
        0 => 0x0000,
        1 => 0x1021,
        2 => 0x2042,
        3 => 0x3063,
        4 => 0x4084,
        5 => 0x50A5,
        6 => 0x60C6,
        7 => 0x70E7,
        8 => 0x8108,
        9 => 0x9129,
        10 => 0xA14A,
        11 => 0xB16B,
        12 => 0xC18C,
        13 => 0xD1AD,
        14 => 0xE1CE,
        _ => 0xF1EF,
    }
}

// The register after one octet with no table, by shifts.
pub fn no_table_octet(r: u16, b: u8) -> u16
    ensures { result ≡ run r (octet_bits b) }
{
    let x = (r >> 8) ^ u16::from(b);
    let y = x ^ (x >> 4);
    (r << 8) ^ ((y << 12) ^ (y << 5) ^ y)
}
