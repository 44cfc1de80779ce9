// The steps of the log's work. `grow` and `sector::write` are the only functions here that change a buffer: growth with zeros,
// and one sector a call.
// Its modules: `store`, bytes into a buffer; `sector`, the write of one sector.
#![tactic(auto)]

mod sector;
pub mod store;

ghost use Rattle.std.specs.Prelude.{◌≡◌, ◌+◌, ◌≤◌, length as length_of, take, drop};
ghost use Rattle.extent.specs.Extent.{part as part_of};
ghost use Rattle.decision.specs.Refusal.{refusal_of, outcome};
ghost use Rattle.vhdx_walk.specs.Walk.{sectors_left, Ready, Settled};
ghost use Rattle.vhdx_log.specs.Plan.{plan};
ghost use Rattle.vhdx_steps.specs.Buffer.{zeroed};
ghost use Rattle.vhdx_steps.specs.Steps.{steps, runs, chosen, single};
ghost use Rattle.vhdx_steps.specs.Calls.{file};
ghost use Rattle.vhdx_replay.specs.Writes.{first_fits_in, first_written, all_written, Writable};
ghost use Rattle.vhdx_replay.specs.Planned.{log_extent, Planned};

use decision::Refusal;
use extent::Extent;
use vhdx_log::Work;
use vhdx_walk::Walk;

// Step 0: zeros from the given length up to the final one, upward, so that growth that is interrupted is shorter growth.
fn grow(buffer: &mut [u8], from: u64, to: u64)
    requires { (from ≤ to) × (to ≤ length_of buffer.old) }
    ensures { buffer.new ≡ zeroed buffer.old from to }
{
    store::zeros(buffer, from as usize, to as usize);
}

// Where the log is, of the image that is the buffer's first length bytes; nowhere without a current header.
pub fn log_extent(buffer: &[u8], length: u64) -> Extent
    ensures { result ≡ log_extent buffer.now length }
{
    match vhdx_header::read(buffer, length) {
        Ok(header) => Extent {
            offset: header.log_offset,
            length: header.log_length,
        },
        Err(_) => extent::nowhere(),
    }
}

// The first steps of the planned work: growth, then `count` of its sectors in their order, or all where it has no more.
pub fn first_steps(buffer: &mut [u8], length: u64, log: Extent, work: Work, count: u64)
    requires { Planned buffer.old length log work }
    ensures { buffer.new ≡ (runs (take (count + 1) (steps (plan buffer.old length))) (file buffer.old length)).buffer }
{
    grow(buffer, length, work.length);
    let start = vhdx_walk::from(work.cursor).forward(extent::part(buffer, log), 0);
    write_sectors(buffer, log, start, count);
}

// Sector i of the planned work alone, which is step i + 1; or refusal 21 or 22.
pub fn one_sector(
    buffer: &mut [u8],
    length: u64,
    log: Extent,
    work: Work,
    i: u64,
) -> Result<(), Refusal>
    requires { Planned buffer.old length log work }
    ensures value { refusal_of (outcome result) ≡ refusal_of (chosen (plan buffer.old length) (i + 1) length) }
    ensures buffer_after { buffer.new ≡ (runs (single (plan buffer.old length) (i + 1) length) (file buffer.old length)).buffer }
{
    let s = vhdx_walk::from(work.cursor)
        .nth(extent::part(buffer, log), i)
        .ok_or(Refusal::NoSuchStep)?;
    if extent::is_inside(s.offset, 4096, length) {
        sector::write(buffer, log, s);
        Ok(())
    } else {
        Err(Refusal::StepOutside)
    }
}

// The write of the sector that a walk is at, and the walk moved past it; nothing at the end.
fn write_next(buffer: &mut [u8], log: Extent, walk: Walk) -> Walk
    requires { (log.offset + log.length ≤ length_of buffer.old) × Ready (part_of buffer.old log) walk × Settled (part_of buffer.old log) walk × first_fits_in (sectors_left (part_of buffer.old log) walk) (length_of buffer.old) }
    ensures buffer_after { buffer.new ≡ first_written (sectors_left (part_of buffer.old log) walk) buffer.old }
    ensures ready { Ready (part_of buffer.old log) result }
    ensures rest { (sectors_left (part_of buffer.old log) result ≡ drop 1 (sectors_left (part_of buffer.old log) walk)) × Settled (part_of buffer.old log) result }
{
    match walk.current(extent::part(buffer, log)) {
        None => walk,
        Some(s) => {
            let next = walk.forward(extent::part(buffer, log), 1);
            sector::write(buffer, log, s);
            next
        }
    }
}

// The first `count` of the sectors that a walk has before it, one a call, in their order.
fn write_sectors(buffer: &mut [u8], log: Extent, start: Walk, count: u64)
    requires { Writable buffer.old log start }
    ensures { buffer.new ≡ all_written (take count (sectors_left (part_of buffer.old log) start)) buffer.old }
{
    let mut walk = start;
    for _ in 0..count {
        walk = write_next(buffer, log, walk);
    }
}
