// Closing a log for good (change request Q-6): the log's work as attach does it, then the header that is not current rewritten.
#![tactic(auto)]

ghost use Rattle.std.specs.Prelude.{◌≡◌, ◌+◌};
ghost use Rattle.decision.specs.Refusal.{refusal_of, outcome};
ghost use Rattle.vhdx_steps.specs.Calls.{file};
ghost use Rattle.vhdx_steps.specs.Steps.{chosen};
ghost use Rattle.vhdx_steps.specs.Stepped.{stepped_numbers};
ghost use Rattle.vhdx_close_steps.specs.Close.{close_plan, after_close, close_answer, closed_numbers, after_close_step, close_step_answer};
ghost use Rattle.vhdx_close.specs.Deciding.{ending_of, Decided, Doable};

use decision::Refusal;
use extent::Extent;
use field::Guid;
use vhdx_close_steps::Closed;
use vhdx_header::Header;
use vhdx_log::Work;

// The log's work, and whether the header is written behind it.
#[derive(Clone, Copy)]
pub struct Job {
    pub work: Work,
    pub log: Extent,
    // where the current header stands
    pub slot: u64,
    pub rewrite: bool,
}

// Whether the header that is not current is written behind the last sector: not where the log identifier is zero already.
fn rewrites(header: Header) -> Result<bool, Refusal>
    ensures { result ≡ ending_of header }
{
    if header.log_guid == Guid::ZERO {
        Ok(false)
    } else if header.sequence_number < u64::MAX {
        Ok(true)
    } else {
        Err(Refusal::SequenceNumberSpent)
    }
}

// All that is decided before anything is written: 1 to 8, 23, or the work.
fn decide(buffer: &[u8], length: u64) -> Result<Job, Refusal>
    ensures { Decided buffer.now length result }
{
    let header = vhdx_header::read(buffer, length)?;
    let work = vhdx_log::plan(buffer, length)?;
    Ok(Job {
        work,
        log: Extent {
            offset: header.log_offset,
            length: header.log_length,
        },
        slot: header.slot,
        rewrite: rewrites(header)?,
    })
}

// Closes the log of the image that is the buffer's first length bytes: applies it, then rewrites the header that is not current, with
// this file-write identifier. What is refused is decided before anything is written.
pub fn close(buffer: &mut [u8], length: u64, identifier: &[u8; 16]) -> Result<Closed, Refusal>
    ensures value { closed_numbers length result ≡ close_answer identifier.now (file buffer.old length) }
    ensures buffer_after { buffer.new ≡ (after_close identifier.now (file buffer.old length)).buffer }
{
    let job = decide(buffer, length)?;
    carry_out(buffer, length, identifier, job);
    Ok(Closed {
        length: job.work.length,
        count: job.work.count,
    })
}

fn carry_out(buffer: &mut [u8], length: u64, identifier: &[u8; 16], job: Job)
    requires { Doable buffer.old length job }
    ensures { buffer.new ≡ (after_close identifier.now (file buffer.old length)).buffer }
{
    vhdx_replay::first_steps(buffer, length, job.log, job.work, job.work.count);
    if job.rewrite {
        vhdx_rewrite::write(buffer, job.slot, identifier);
    }
}

// Step k of closing alone: 0 grows the image, k writes sector k, and the step after the last sector's writes the header. Answers the
// length after it.
pub fn close_step(
    buffer: &mut [u8],
    length: u64,
    identifier: &[u8; 16],
    k: u64,
) -> Result<u64, Refusal>
    ensures value { stepped_numbers length result ≡ close_step_answer identifier.now k (file buffer.old length) }
    ensures buffer_after { buffer.new ≡ (after_close_step identifier.now k (file buffer.old length)).buffer }
{
    let job = decide(buffer, length)?;
    if k == 0 {
        vhdx_replay::first_steps(buffer, length, job.log, job.work, 0);
        return Ok(job.work.length);
    }
    write_one(buffer, length, identifier, job, k - 1)?;
    Ok(length)
}

// Step i + 1: a sector, or the header behind the last one.
fn write_one(
    buffer: &mut [u8],
    length: u64,
    identifier: &[u8; 16],
    job: Job,
    i: u64,
) -> Result<(), Refusal>
    requires { Doable buffer.old length job }
    ensures value { refusal_of (outcome result) ≡ refusal_of (chosen (close_plan identifier.now (file buffer.old length)) (i + 1) length) }
    ensures buffer_after { buffer.new ≡ (after_close_step identifier.now (i + 1) (file buffer.old length)).buffer }
{
    if i < job.work.count {
        return vhdx_replay::one_sector(buffer, length, job.log, job.work, i);
    }
    if job.rewrite && i == job.work.count {
        vhdx_rewrite::write(buffer, job.slot, identifier);
        return Ok(());
    }
    Err(Refusal::NoSuchStep)
}
