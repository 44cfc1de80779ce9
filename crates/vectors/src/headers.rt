// The current header: which one it is, and each rule of refusal 4 at its boundary.
use crate::image::{self, Buffer, Field, Slot};
use crate::report;
use std::io;

const MIB: u64 = 1048576;

// The image's length in most cases. The buffer is 1 MiB longer.
const LENGTH: u64 = 3145728;

pub fn run(rt: &impl Print, b: &mut Buffer) -> io::Result<()> {
    image::put(b, 0, 8, 0x656c_6966_7864_6876);
    lengths(rt, b)?;
    choice(rt, b)?;
    rules(rt, b)?;
    log_ranges(rt, b)?;
    limits(rt, b)
}

fn lengths(rt: &impl Print, b: &mut Buffer) -> io::Result<()> {
    image::header(b, Slot::First, 7);
    report::header(rt, "one valid header", b, LENGTH)?;
    report::header(rt, "length of the buffer", b, 4194304)?;
    report::header(rt, "length one above the buffer", b, 4194305)?;
    report::header(rt, "greatest length", b, u64::MAX)?;
    report::header(rt, "length one below 1 MiB", b, MIB - 1)?;
    report::header(rt, "length 1 MiB", b, MIB)?;
    image::put(b, 7, 1, 0x66);
    report::header(rt, "last byte of vhdxfile changed", b, LENGTH)?;
    image::spoil(b, Slot::First);
    report::header(rt, "and no valid header", b, LENGTH)?;
    image::put(b, 7, 1, 0x65);
    report::header(rt, "no valid header", b, LENGTH)
}

fn choice(rt: &impl Print, b: &mut Buffer) -> io::Result<()> {
    image::header(b, Slot::Second, 8);
    report::header(rt, "the second alone", b, LENGTH)?;
    image::header(b, Slot::First, 7);
    report::header(rt, "7 and 8", b, LENGTH)?;
    image::header(b, Slot::First, 9);
    report::header(rt, "9 and 8", b, LENGTH)?;
    image::header(b, Slot::First, 8);
    report::header(rt, "8 and 8", b, LENGTH)?;
    image::header(b, Slot::First, u64::MAX);
    report::header(rt, "2^64 - 1 and 8", b, LENGTH)?;
    image::put(b, 69631, 1, 1);
    report::header(rt, "the first with a flipped bit", b, LENGTH)?;
    image::put(b, 131084, 1, 1);
    report::header(rt, "both with a flipped bit", b, LENGTH)?;
    image::put(b, 69631, 1, 0);
    report::header(rt, "the second with a flipped bit", b, LENGTH)?;
    image::spoil(b, Slot::Second);
    Ok(())
}

// One field of the only header, set to a value.
fn case(rt: &impl Print, b: &mut Buffer, label: &str, field: Field, value: u64) -> io::Result<()> {
    image::header(b, Slot::First, 7);
    image::set(b, Slot::First, field, value);
    report::header(rt, label, b, LENGTH)
}

fn rules(rt: &impl Print, b: &mut Buffer) -> io::Result<()> {
    case(rt, b, "Version 0", Field::VERSION, 0)?;
    case(rt, b, "Version 2", Field::VERSION, 2)?;
    case(rt, b, "Version 257", Field::VERSION, 257)?;
    case(rt, b, "LogVersion 1", Field::LOG_VERSION, 1)?;
    image::set(b, Slot::First, Field::LOG_GUID_LOW, 0);
    report::header(
        rt,
        "LogVersion 1, identifier zero but for its second half",
        b,
        LENGTH,
    )?;
    image::set(b, Slot::First, Field::LOG_GUID_HIGH, 0);
    report::header(rt, "LogVersion 1, identifier zero", b, LENGTH)?;
    image::set(b, Slot::First, Field::LOG_OFFSET, 0);
    report::header(rt, "log offset 0, identifier zero", b, LENGTH)
}

fn log_ranges(rt: &impl Print, b: &mut Buffer) -> io::Result<()> {
    case(rt, b, "log offset 0", Field::LOG_OFFSET, 0)?;
    case(rt, b, "log offset 1 MiB - 1", Field::LOG_OFFSET, MIB - 1)?;
    case(rt, b, "log offset 1 MiB + 1", Field::LOG_OFFSET, MIB + 1)?;
    case(
        rt,
        b,
        "log offset 2 MiB, to the end",
        Field::LOG_OFFSET,
        2097152,
    )?;
    case(
        rt,
        b,
        "log offset 3 MiB, past the image, in the buffer",
        Field::LOG_OFFSET,
        3145728,
    )?;
    case(
        rt,
        b,
        "log offset 2^64 - 1 MiB",
        Field::LOG_OFFSET,
        18446744073708503040,
    )?;
    case(rt, b, "log length 0", Field::LOG_LENGTH, 0)?;
    case(rt, b, "log length 1 MiB + 1", Field::LOG_LENGTH, MIB + 1)?;
    case(
        rt,
        b,
        "log length 2 MiB, to the end",
        Field::LOG_LENGTH,
        2097152,
    )?;
    case(rt, b, "log length 3 MiB", Field::LOG_LENGTH, 3145728)?;
    case(
        rt,
        b,
        "log length 2^32 - 1 MiB",
        Field::LOG_LENGTH,
        4293918720,
    )?;
    image::header(b, Slot::First, 7);
    report::header(rt, "length at the log's end", b, 2097152)?;
    report::header(rt, "length one below the log's end", b, 2097151)
}

// An image that holds a log of 64 MiB is too large for this program: here the rules of the header's own fields.
fn limits(rt: &impl Print, b: &mut Buffer) -> io::Result<()> {
    image::set(b, Slot::First, Field::LOG_LENGTH, 67108864);
    report::rules(rt, "log length 64 MiB", b)?;
    image::set(b, Slot::First, Field::LOG_LENGTH, 68157440);
    report::rules(rt, "log length 65 MiB", b)
}
