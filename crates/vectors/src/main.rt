// Outside vectors and boundary cases, run and printed. What is printed is compared with the file stdout, which holds
// what the documents say.
#![tactic(auto)]

mod headers;
mod image;
mod report;

use std::io;

// The CRC-32C examples of RFC 3720, appendix B.4, and the usual check value of "123456789".
fn crc_examples(rt: &impl Print) -> io::Result<()> {
    report::checksum(rt, "32 bytes of 0", &[0u8; 32])?;
    report::checksum(rt, "32 bytes of 255", &[255u8; 32])?;
    report::checksum(
        rt,
        "0 to 31 ascending",
        b"\x00\x01\x02\x03\x04\x05\x06\x07\x08\x09\x0a\x0b\x0c\x0d\x0e\x0f\x10\x11\x12\x13\x14\x15\x16\x17\x18\x19\x1a\x1b\x1c\x1d\x1e\x1f",
    )?;
    report::checksum(
        rt,
        "31 to 0 descending",
        b"\x1f\x1e\x1d\x1c\x1b\x1a\x19\x18\x17\x16\x15\x14\x13\x12\x11\x10\x0f\x0e\x0d\x0c\x0b\x0a\x09\x08\x07\x06\x05\x04\x03\x02\x01\x00",
    )?;
    report::checksum(
        rt,
        "read command",
        b"\x01\xc0\x00\x00\x00\x00\x00\x00\x00\x00\x00\x00\x00\x00\x00\x00\x14\x00\x00\x00\x00\x00\x04\x00\x00\x00\x00\x14\x00\x00\x00\x18\x28\x00\x00\x00\x00\x00\x00\x00\x02\x00\x00\x00\x00\x00\x00\x00",
    )?;
    report::checksum(rt, "123456789", b"123456789")
}

fn main(rt: HostRuntime) -> io::Result<()> {
    crc_examples(&rt)?;
    let mut buffer = [0u8; 4194304];
    headers::run(&rt, &mut buffer)
}
