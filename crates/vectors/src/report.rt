// One line of output for each case.
use crate::image::Buffer;
use std::io;

pub fn checksum(rt: &impl Print, label: &str, bytes: &[u8]) -> io::Result<()> {
    let sum = crc32c::checksum(bytes);
    println!(rt; "crc32c of {label}: {sum:08x}")
}

// What the header reader answers of the first length bytes of a buffer.
pub fn header(rt: &impl Print, label: &str, buffer: &[u8], length: u64) -> io::Result<()> {
    match vhdx_header::read(buffer, length) {
        Err(refusal) => println!(rt; "{label}: refused {}", refusal.number()),
        Ok(h) => println!(rt;
            "{label}: header at {}, number {}, log at {} of {}, identifier {:016x}{:016x}",
            h.slot, h.sequence_number, h.log_offset, h.log_length, h.log_guid.high, h.log_guid.low,
        ),
    }
}

// Whether the fields of the header in the first slot keep the rules that they alone decide.
pub fn rules(rt: &impl Print, label: &str, b: &Buffer) -> io::Result<()> {
    let kept = vhdx_header::fields::keep_rules(field::array_at(b, 65536));
    println!(rt; "{label}: {}", if kept { "kept" } else { "broken" })
}
