// The log's work planned in pieces, or the refusal 1 to 8: a planner says which bytes of the file it wants, is handed in with them, and
// handed back moved. It goes through the current header, the scan for the active sequence, the survey of it, and decides.
#![tactic(auto)]

ghost use Rattle.std.specs.Prelude.{◌≡◌, ◌+◌, ◌≤◌, ◌<◌, length as length_of};
ghost use Rattle.vhdx_pieces_plan.specs.Planning.{sectors_of, sector_in, Sane, Kept, wanted_of, started, headed, with_header, with_log, without_log, scanned, sought, toured, judged as judged_of, step_of};

use decision::Refusal;
use extent::Extent;
use field::Guid;
use std::ops::ControlFlow;
use vhdx_entry::ring::RingPos;
use vhdx_header::Header;
use vhdx_log::decide;
use vhdx_pieces_scan::Scanner;
use vhdx_pieces_survey::{Report, Tour};
use vhdx_sequence::Sequence;

// The file's length, the stated capacity, where the log lies and its identifier, as soon as they are known.
#[derive(Clone, Copy)]
pub struct Context {
    pub length: u64,
    pub capacity: u64,
    pub log: Extent,
    pub guid: Guid,
}

// A found sequence that is surveyed.
#[derive(Clone, Copy)]
pub struct Surveying {
    pub found: Sequence,
    pub tour: Tour,
}

#[derive(Clone, Copy)]
pub enum Phase {
    Header(vhdx_pieces_header::Stage),
    Scan(Scanner),
    Survey(Surveying),
}

#[derive(Clone, Copy)]
pub struct Planner {
    pub context: Context,
    pub phase: Phase,
}

// What is to be done: the final length, how many sectors are to be written, and where their descriptors are: `left` entries of the
// log from sector `start` on.
#[derive(Clone, Copy)]
pub struct Order {
    pub length: u64,
    pub count: u64,
    pub log: Extent,
    pub start: usize,
    pub left: u64,
}

// Bytes of the file are wanted, or it has ended with an order, or why there is none.
pub type Step = ControlFlow<Result<Order, Refusal>, Planner>;

// Of a file of this length, in this capacity.
pub fn start(length: u64, capacity: u64) -> Step
    ensures { (result ≡ started length capacity) × Kept length result }
{
    header_turn(
        length,
        capacity,
        vhdx_pieces_header::start(length, capacity),
    )
}

// The bytes that it wants.
pub fn wanted(p: Planner) -> Extent
    requires { Sane p }
    ensures { (result ≡ wanted_of p) × (result.offset + result.length ≤ p.context.length) × (result.length ≤ 65536) }
{
    match p.phase {
        Phase::Header(stage) => Extent {
            offset: vhdx_pieces_header::offset(stage),
            length: vhdx_pieces_header::size(stage),
        },
        Phase::Scan(s) => sector_at(p.context.log, vhdx_pieces_scan::wanted(s)),
        Phase::Survey(s) => sector_at(p.context.log, vhdx_pieces_survey::wanted(s.tour)),
    }
}

// Sector k of the log.
pub fn sector_at(log: Extent, k: usize) -> Extent
    requires { (log.offset + log.length < 18446744073709551616) × (k < sectors_of log) }
    ensures { (result ≡ sector_in log k) × (result.offset + result.length ≤ log.offset + log.length) × (result.length ≡ 4096) }
{
    Extent {
        offset: log.offset + 4096 * k as u64,
        length: 4096,
    }
}

// Fed them.
pub fn next(p: Planner, piece: &[u8]) -> Step
    requires { Sane p × (length_of piece.now ≡ (wanted_of p).length) }
    ensures { (result ≡ step_of p piece.now) × Kept p.context.length result }
{
    let context = p.context;
    match p.phase {
        Phase::Header(stage) => header_turn(
            context.length,
            context.capacity,
            vhdx_pieces_header::next(stage, context.length, piece),
        ),
        Phase::Scan(s) => scan_turn(
            context,
            vhdx_pieces_scan::next(s, context.guid, field::array_at(piece, 0)),
        ),
        Phase::Survey(s) => survey_turn(
            context,
            s.found,
            vhdx_pieces_survey::next(s.tour, context.log, field::array_at(piece, 0)),
        ),
    }
}

fn header_turn(length: u64, capacity: u64, step: vhdx_pieces_header::Step) -> Step
    ensures { result ≡ headed length capacity step }
{
    match step {
        ControlFlow::Continue(stage) => ControlFlow::Continue(Planner {
            context: Context {
                length,
                capacity,
                log: extent::nowhere(),
                guid: Guid::ZERO,
            },
            phase: Phase::Header(stage),
        }),
        ControlFlow::Break(Ok(header)) => with_header(length, capacity, header),
        ControlFlow::Break(Err(refusal)) => ControlFlow::Break(Err(refusal)),
    }
}

// That the log is short and inside the file holds of a file that does not change.
fn with_header(length: u64, capacity: u64, header: Header) -> Step
    ensures { result ≡ with_header length capacity header }
{
    let log = Extent {
        offset: header.log_offset,
        length: header.log_length,
    };
    if log.length < 4294967296 && extent::is_in_bounds(log, length) {
        with_log(Context {
            length,
            capacity,
            log,
            guid: header.log_guid,
        })
    } else {
        ControlFlow::Break(Err(Refusal::HeaderField))
    }
}

fn with_log(context: Context) -> Step
    requires { context.log.length < 4294967296 }
    ensures { result ≡ with_log context }
{
    if context.guid == Guid::ZERO {
        return ControlFlow::Break(without_log(context));
    }
    scan_turn(context, vhdx_pieces_scan::start(sectors(context.log)))
}

// Without a log nothing is to write and nothing grows.
fn without_log(context: Context) -> Result<Order, Refusal>
    ensures { result ≡ without_log context }
{
    if decide::is_within(context.length, context.capacity) {
        Ok(Order {
            length: context.length,
            count: 0,
            log: context.log,
            start: 0,
            left: 0,
        })
    } else {
        Err(Refusal::FinalLength)
    }
}

// How many sectors a log has.
pub fn sectors(log: Extent) -> usize
    ensures { result ≡ sectors_of log }
{
    (log.length / 4096) as usize
}

fn scan_turn(context: Context, step: vhdx_pieces_scan::Step) -> Step
    requires { context.log.length < 4294967296 }
    ensures { result ≡ scanned context step }
{
    match step {
        ControlFlow::Continue(s) => ControlFlow::Continue(Planner {
            context,
            phase: Phase::Scan(s),
        }),
        ControlFlow::Break(found) => seek(context, found),
    }
}

// That a sequence starts in the log and has no more entries than the log has sectors holds of a log that does not change.
fn seek(context: Context, found: Option<Sequence>) -> Step
    requires { context.log.length < 4294967296 }
    ensures { result ≡ sought context found }
{
    match found {
        None => ControlFlow::Break(Err(Refusal::NoLogSequence)),
        Some(q) => {
            let n = sectors(context.log);
            if q.start < n && q.more < n as u64 {
                survey_turn(
                    context,
                    q,
                    vhdx_pieces_survey::start(
                        RingPos {
                            at: q.start,
                            len: n,
                        },
                        q.more,
                    ),
                )
            } else {
                ControlFlow::Break(Err(Refusal::NoLogSequence))
            }
        }
    }
}

fn survey_turn(context: Context, found: Sequence, step: vhdx_pieces_survey::Step) -> Step
    requires { found.more < sectors_of context.log }
    ensures { result ≡ toured context found step }
{
    match step {
        ControlFlow::Continue(tour) => ControlFlow::Continue(Planner {
            context,
            phase: Phase::Survey(Surveying { found, tour }),
        }),
        ControlFlow::Break(Some(report)) => ControlFlow::Break(judged(context, found, report)),
        ControlFlow::Break(None) => ControlFlow::Break(Err(Refusal::NoLogSequence)),
    }
}

// 6 to 8.
fn judged(context: Context, found: Sequence, report: Report) -> Result<Order, Refusal>
    requires { found.more < sectors_of context.log }
    ensures { result ≡ judged_of context found report }
{
    let all = report.found;
    if context.length < report.flushed {
        return Err(Refusal::ShorterThanFlushed);
    }
    if all.lies {
        return Err(Refusal::ForbiddenSector);
    }
    let length = context.length.max(report.last).max(all.end);
    if decide::is_within(length, context.capacity) {
        Ok(Order {
            length,
            count: all.count,
            log: context.log,
            start: found.start,
            left: found.more + 1,
        })
    } else {
        Err(Refusal::FinalLength)
    }
}
