// What answers are made of, each part written out as it comes.
use reserve::Bounds;
use space_packet::{PusError, SpHeader};
use tc_header::PusTcSecondaryHeader;
use tm_header::PusTmSecondaryHeader;

pub fn say(s: &[u8]) {
    io::write_all(1, s);
}

// Some words, then the numbers, with a separator between.
pub fn list(words: &[u8], separator: u8, numbers: &[u64]) {
    let mut out = [0u8; 256];
    let mut at = text::put_text(&mut out, 0, words);
    for (k, n) in numbers.iter().enumerate() {
        if k > 0 {
            at = text::put(&mut out, at, separator);
        }
        at = text::put_number(&mut out, at, *n);
    }
    say(text::part(&out, 0, at));
}

// One number after some words.
pub fn number(words: &[u8], n: u64) {
    say(words);
    io::print_decimal(1, n);
}

// Four digits.
pub fn word(w: u16) {
    hex(&w.to_be_bytes());
}

// A space, then the octets, some thousands at a time; `-` for none.
pub fn octets(s: &[u8]) {
    say(b" ");
    if s.is_empty() {
        return say(b"-");
    }
    for part in s.chunks(2048) {
        hex(part);
    }
}

pub fn hex(s: &[u8]) {
    let mut out = io::buffer();
    let n = text::put_hex(&mut out, 0, s);
    say(text::part(&out, 0, n));
}

// ---- refusals

// err: and the number, then each value after a colon; checksums in hexadecimal.
pub fn refusal(e: PusError) {
    if let PusError::ChecksumFailure { stored, computed } = e {
        say(b"err:4:");
        word(stored);
        say(b":");
        return word(computed);
    }
    let r = e.numbers();
    number(b"err:", u64::from(r.number));
    if 0 < r.count {
        number(b":", r.first);
    }
    if 1 < r.count {
        number(b":", r.second);
    }
}

// `ok` or the refusal.
pub fn check(r: Result<(), PusError>) {
    match r {
        Err(e) => refusal(e),
        Ok(()) => say(b"ok"),
    }
}

// How many, after some words, or the refusal.
pub fn size(words: &[u8], r: Result<usize, PusError>) {
    match r {
        Err(e) => refusal(e),
        Ok(n) => number(words, n as u64),
    }
}

// ---- writes

// The answer of a write, and the buffer after it.
pub fn written(r: Result<usize, PusError>, buf: &[u8]) {
    size(b"ok:", r);
    octets(buf);
}

// A space, the answer of a write to a fresh copy of BUF, and the copy. BUF is the field.
pub fn write_afresh<W: FnOnce(&mut [u8]) -> Result<usize, PusError>>(
    field: &[u8],
    buf: &mut [u8],
    write: W,
)
    requires { W.IsAlwaysCallable write }
{
    let _ = text::octets(field, buf);
    say(b" ");
    written(write(buf), buf);
}

// A creator's choice of checksum, the length of its packet and its own checksum, each after a space.
pub fn creator(has_checksum: bool, len: Result<usize, PusError>, own: Result<u16, PusError>) {
    number(b" ", u64::from(has_checksum));
    say(b" ");
    size(b"", len);
    say(b" ");
    match own {
        Err(e) => refusal(e),
        Ok(w) => word(w),
    }
}

// The length of a reserved packet and of its data, then where the part for the data begins in the buffer, and how long it is.
pub fn reserved(
    total: usize,
    len: Result<usize, PusError>,
    bounds: Result<Bounds, PusError>,
    part: usize,
) {
    number(b" ", total as u64);
    say(b" ");
    size(b"", len);
    say(b" ");
    size(b"", bounds.map(|part| part.start));
    number(b" ", part as u64);
}

// ---- headers

// SP after some words.
pub fn sp(words: &[u8], h: SpHeader) {
    let v = [
        u64::from(h.ccsds_version()),
        u64::from(h.packet_type().raw_value()),
        u64::from(h.sec_header_flag()),
        u64::from(h.apid().value()),
        u64::from(h.sequence_flags().raw_value()),
        u64::from(h.seq_count().value()),
        u64::from(h.data_len()),
    ];
    list(words, b',', &v);
}

// A space, then SEC: version, acknowledgement flags, service, subtype, source.
pub fn sec(x: PusTcSecondaryHeader) {
    let v = [
        u64::from(x.pus_version().raw_value()),
        u64::from(x.ack_flags().raw_value()),
        u64::from(x.service_type_id()),
        u64::from(x.message_subtype_id()),
        u64::from(x.source_id()),
    ];
    list(b" ", b',', &v);
}

// A space, then TM: version, time reference status, service, subtype, counter, destination.
pub fn tm(x: PusTmSecondaryHeader) {
    let v = [
        u64::from(x.pus_version().raw_value()),
        u64::from(x.sc_time_ref_status()),
        u64::from(x.service_type_id()),
        u64::from(x.message_subtype_id()),
        u64::from(x.msg_counter()),
        u64::from(x.dest_id()),
    ];
    list(b" ", b',', &v);
}

// A space, then the total, and where the data start and how many they are.
pub fn place(total: usize, start: usize, end: usize) {
    let len = end.saturating_sub(start);
    list(b" ", b' ', &[total as u64, start as u64, len as u64]);
}

// A space, then the stored checksum; `-` for none.
pub fn stored(crc16: Option<u16>) {
    say(b" ");
    match crc16 {
        Some(w) => word(w),
        None => say(b"-"),
    }
}
