// The log's work, planned before anything is written, or the refusal: document 01's 1 to 8.
// Its modules: `survey`, what a sequence's descriptors say together; `decide`, refusals 6 to 8.
#![tactic(auto)]

pub mod decide;
pub mod survey;

ghost use Rattle.std.specs.Prelude.{◌≡◌, ◌*◌, ◌%◌, ◌≤◌, length as length_of};
ghost use Rattle.extent.specs.Extent.{mib};
ghost use Rattle.vhdx_header.specs.Current.{current_header};
ghost use Rattle.vhdx_sequence.specs.Sequence.{active_sequence};
ghost use Rattle.vhdx_log.specs.Work.{count};
ghost use Rattle.vhdx_log.specs.Plan.{log_bytes, plan_sequence, plan_log, plan as plan_for};
ghost use Rattle.vhdx_log.specs.Answers.{log_of, plan_of, count_of, ReadyIn, Stands};

use decision::Refusal;
use field::Guid;
use vhdx_header::Header;
use vhdx_walk::cursor::Cursor;

// What is to be done: grow the image to this length, then write so many sectors, those of the descriptors that the cursor
// has before it.
#[derive(Clone, Copy)]
pub struct Work {
    pub length: u64,
    pub count: u64,
    pub cursor: Cursor,
}

// Of the image that is the first length bytes of the buffer.
pub fn plan(buffer: &[u8], length: u64) -> Result<Work, Refusal>
    ensures planned { plan_of buffer.now length result ≡ plan_for buffer.now length }
    ensures counted { count_of result ≡ count (plan_for buffer.now length) }
    ensures ready { ReadyIn (log_of buffer.now length) result }
{
    let header = vhdx_header::read(buffer, length)?;
    with_header(buffer, length, header)
}

fn with_header(buffer: &[u8], length: u64, header: Header) -> Result<Work, Refusal>
    requires { current_header buffer.now length ≡ Ok header }
    ensures { Stands (log_bytes header buffer.now) result (plan_log header (log_bytes header buffer.now) length (length_of buffer.now)) }
{
    let capacity = buffer.len() as u64;
    if header.log_guid == Guid::ZERO {
        return decide::without_log(length, capacity);
    }
    with_log(
        part(buffer, length, header),
        header.log_guid,
        header.log_offset,
        length,
        capacity,
    )
}

// The log's bytes in the buffer; none without a current header.
pub fn log(buffer: &[u8], length: u64) -> &[u8]
    ensures { result.now ≡ log_of buffer.now length }
{
    match vhdx_header::read(buffer, length) {
        Ok(header) => part(buffer, length, header),
        Err(_) => &buffer[..0],
    }
}

// The same where this is the current header.
fn part(buffer: &[u8], length: u64, header: Header) -> &[u8]
    requires { current_header buffer.now length ≡ Ok header }
    ensures { result.now ≡ log_bytes header buffer.now }
{
    let start = header.log_offset as usize;
    let end = start + header.log_length as usize;
    &buffer[start..end]
}

// Of the log that stands at log_offset in the image of this length, and has an identifier other than zero.
fn with_log(
    log: &[u8],
    guid: Guid,
    log_offset: u64,
    length: u64,
    capacity: u64,
) -> Result<Work, Refusal>
    requires { (length_of log.now % mib ≡ 0) × (length_of log.now ≤ 64 * mib) }
    ensures { Stands log.now result (plan_sequence (record { offset = log_offset; length = length_of log.now }) log.now length capacity (active_sequence log.now guid)) }
{
    let found = vhdx_sequence::active(log, guid).ok_or(Refusal::NoLogSequence)?;
    decide::sequence(log, log_offset, length, capacity, found)
}
