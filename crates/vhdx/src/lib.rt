// The seven calls of the library: attach, the plan that it follows, a single step of the replay, closing the log, a single step of
// that, lookup, parent key. None has a `requires`: a caller may hand in any buffer, length, step, identifier, sector, facts and key.
// Attach, close and their steps write, and write through `vhdx_replay::store` alone.
#![tactic(auto)]

ghost use Rattle.std.specs.Prelude.{◌≡◌, ◌≤◌, length as length_of, take};
ghost use Rattle.decision.specs.Refusal.{outcome};
ghost use Rattle.extent.specs.Extent.{mib, part as part_of, onward};
ghost use Rattle.vhdx_close_steps.specs.Close.{after_close, close_answer, closed_numbers, after_close_step, close_step_answer};
ghost use Rattle.vhdx_map.specs.Lookup.{lookup as lookup_of};
ghost use Rattle.vhdx_parent.specs.Key.{key_extent};
ghost use Rattle.vhdx_steps.specs.Calls.{file};
ghost use Rattle.vhdx_steps.specs.Stepped.{stepped_numbers};
ghost use Rattle.vhdx_tables.specs.Tables.{tables};
ghost use Rattle.vhdx.specs.Attach.{after_attach, told, attach_answer, attached_numbers};
ghost use Rattle.vhdx.specs.Plan.{plan_answer, planned_numbers};
ghost use Rattle.vhdx.specs.Step.{after_step, step_answer};

use decision::Refusal;
use extent::Extent;
use vhdx_close_steps::Closed;
use vhdx_facts::Facts;
use vhdx_log::Work;
use vhdx_map::Place;

#[derive(Clone, Copy, Debug, PartialEq, Eq, Drop)]
pub struct Attached {
    // of the image as attach leaves it
    pub length: u64,
    // how many sectors the log's replay wrote
    pub count: u64,
    // or document 01's refusal: 1 to 8 leave the log as it is, 9 to 15 leave it applied
    pub facts: Result<Facts, Refusal>,
}

#[derive(Clone, Copy, Debug, PartialEq, Eq, Drop)]
pub struct Planned {
    // of the image as attach would leave it
    pub length: u64,
    // how many sectors the log's replay would write
    pub count: u64,
}

// Applies the log of the image that is the buffer's first length bytes, and reads its tables. What 1 to 8 refuse is decided
// before anything is written.
pub fn attach(buffer: &mut [u8], length: u64) -> Attached
    ensures value { attached_numbers result ≡ attach_answer (file buffer.old length) }
    ensures buffer_after { buffer.new ≡ (after_attach (file buffer.old length)).buffer }
{
    match vhdx_log::plan(buffer, length) {
        Err(refusal) => Attached {
            length,
            count: 0,
            facts: Err(refusal),
        },
        Ok(work) => {
            let log = vhdx_replay::log_extent(buffer, length);
            vhdx_replay::first_steps(buffer, length, log, work, work.count);
            read(buffer, log, work)
        }
    }
}

// The tables of an image whose log, which is here, is applied.
fn read(buffer: &[u8], log: Extent, work: Work) -> Attached
    requires { (mib ≤ work.length) × (work.length ≤ length_of buffer.now) }
    ensures { attached_numbers result ≡ told (tables (take work.length buffer.now) log) work.length work.count }
{
    let end = work.length as usize;
    Attached {
        length: work.length,
        count: work.count,
        facts: vhdx_tables::read(&buffer[..end], log),
    }
}

// What attach would do, without doing it: reads the headers and the log, never writes, and takes time linear in the log.
// Refuses 1 to 8; 9 to 15 are not foretold: they judge the tables as the log leaves them.
pub fn plan(buffer: &[u8], length: u64) -> Result<Planned, Refusal>
    ensures { planned_numbers length result ≡ plan_answer (file buffer.now length) }
{
    let planned = vhdx_log::plan(buffer, length)?;
    Ok(Planned {
        length: planned.length,
        count: planned.count,
    })
}

// Does step k of the replay alone: 0 grows the image, k writes sector k. Answers the length after it. The time it takes is that of the
// plan and of one sector.
pub fn step(buffer: &mut [u8], length: u64, k: u64) -> Result<u64, Refusal>
    ensures value { stepped_numbers length result ≡ step_answer k (file buffer.old length) }
    ensures buffer_after { buffer.new ≡ (after_step k (file buffer.old length)).buffer }
{
    let work = vhdx_log::plan(buffer, length)?;
    let log = vhdx_replay::log_extent(buffer, length);
    if k == 0 {
        vhdx_replay::first_steps(buffer, length, log, work, 0);
        return Ok(work.length);
    }
    vhdx_replay::one_sector(buffer, length, log, work, k - 1)?;
    Ok(length)
}

// Closes the log for good: applies it as attach does, then rewrites the header that is not current, with no log and with this
// file-write identifier. No table is read.
pub fn close(buffer: &mut [u8], length: u64, identifier: &[u8; 16]) -> Result<Closed, Refusal>
    ensures value { closed_numbers length result ≡ close_answer identifier.now (file buffer.old length) }
    ensures buffer_after { buffer.new ≡ (after_close identifier.now (file buffer.old length)).buffer }
{
    vhdx_close::close(buffer, length, identifier)
}

// Does step k of closing alone: those of the replay, then the header's. Answers the length after it.
pub fn close_step(
    buffer: &mut [u8],
    length: u64,
    identifier: &[u8; 16],
    k: u64,
) -> Result<u64, Refusal>
    ensures value { stepped_numbers length result ≡ close_step_answer identifier.now k (file buffer.old length) }
    ensures buffer_after { buffer.new ≡ (after_close_step identifier.now k (file buffer.old length)).buffer }
{
    vhdx_close::close_step(buffer, length, identifier, k)
}

// Where the bytes of a sector are, by the facts that attach answered.
pub fn lookup(facts: Facts, buffer: &[u8], length: u64, sector: u64) -> Result<Place, Refusal>
    ensures { outcome result ≡ lookup_of facts buffer.now length sector }
{
    vhdx_map::lookup(facts, buffer, length, sector)
}

// The value of a key of the parent locator, as the very part of the buffer; the empty beginning of the buffer where there is
// none.
pub fn parent_key<'a>(facts: Facts, buffer: &'a [u8], length: u64, key: &[u8]) -> &'a [u8]
    ensures bytes { result.now ≡ part_of buffer.now (key_extent facts buffer.now length key.now) }
    ensures len { length_of result.now ≡ (key_extent facts buffer.now length key.now).length }
    ensures place { result.ref_ptr ≡ onward buffer.entry.ref_ptr (key_extent facts buffer.now length key.now).offset }
{
    vhdx_parent::value(facts, buffer, length, key)
}

// The same answer as offset and length, for callers that no slice can be handed to.
pub fn parent_key_extent(facts: Facts, buffer: &[u8], length: u64, key: &[u8]) -> Extent
    ensures { result ≡ key_extent facts buffer.now length key.now }
{
    vhdx_parent::value_extent(facts, buffer, length, key)
}
