// The scan for the active log sequence, in pieces: a scanner says which sector of the log it wants, is handed in with that sector,
// and handed back moved. It is `vhdx_sequence::active`'s loop, opened at each sector that it reads.
#![tactic(auto)]

ghost use Rattle.std.specs.Prelude.{◌≡◌, ◌≤◌, ◌<◌};
ghost use Rattle.std.specs.declared.ops.ControlFlow.TheVariants.{Continue};
ghost use Rattle.vhdx_sequence.specs.Scan.{Placed, state_of, fresh};
ghost use Rattle.vhdx_pieces_scan.specs.Scanning.{Upright, Sane, Onward, scanner_at, wanted_of, resumed, progressed, taking, step_of};

use std::ops::ControlFlow;
use vhdx_entry::Entry;
use vhdx_pieces_entry::{Progress, Reading};
use vhdx_sequence::Sequence;
use vhdx_sequence::lap::Place;
use vhdx_sequence::scan::Trace;

// At a place: what starts there is to be read, is being read, or is an entry whose Tail's sector is wanted.
#[derive(Clone, Copy)]
pub enum Stage {
    First,
    Inside(Reading),
    Tail(Entry),
}

#[derive(Clone, Copy)]
pub struct Scanner {
    pub trace: Trace,
    pub place: Place,
    pub stage: Stage,
}

// A sector is wanted, or the scan has ended.
pub type Step = ControlFlow<Option<Sequence>, Scanner>;

// Over a log of n sectors.
pub fn start(n: usize) -> Step
    requires { n < 1048576 }
    ensures { (result ≡ resumed n 0 fresh) × Onward n result }
{
    let trace = Trace::new(n);
    resume(trace, trace.start)
}

// The sector of the log that it wants.
pub fn wanted(s: Scanner) -> usize
    requires { Sane s }
    ensures { (result ≡ wanted_of s) × (result < s.place.pos.len) }
{
    match s.stage {
        Stage::First => s.place.pos.at,
        Stage::Inside(x) => s.place.pos.advance(x.read).at,
        Stage::Tail(e) => e.tail,
    }
}

// Fed that sector.
pub fn next(s: Scanner, guid: field::Guid, sector: &[u8; 4096]) -> Step
    requires { Sane s }
    ensures { (result ≡ step_of guid s sector.now) × Onward s.place.pos.len result }
{
    let n = s.place.pos.len;
    match s.stage {
        Stage::First => progress(s.trace, s.place, vhdx_pieces_entry::first(sector, guid, n)),
        Stage::Inside(x) => { progress(s.trace, s.place, vhdx_pieces_entry::further(x, sector, n)) }
        Stage::Tail(e) => take(s.trace, s.place, e, sector),
    }
}

fn take(trace: Trace, place: Place, e: Entry, sector: &[u8; 4096]) -> Step
    requires { Upright trace place × (e.size ≤ place.pos.len) × (e.tail < place.pos.len) }
    ensures { result ≡ taking place.pos.len place.count (state_of trace) e sector.now }
{
    let after = trace.take_by(sector, place, e);
    resume(after, place.advance(e.size))
}

// What came of a sector of an entry.
fn progress(trace: Trace, place: Place, p: Progress) -> Step
    requires { Upright trace place }
    ensures { result ≡ progressed place.pos.len place.count (state_of trace) p }
{
    match p {
        ControlFlow::Continue(x) => at(trace, place, Stage::Inside(x)),
        ControlFlow::Break(Some(e)) => at(trace, place, Stage::Tail(e)),
        ControlFlow::Break(None) => resume(trace, place.advance(1)),
    }
}

// The next place, if the scan goes on. That it has not come to the end of the second lap holds of a log that does not change.
fn resume(trace: Trace, place: Place) -> Step
    requires { (place.pos.len < 1048576) × Placed place.pos.len place × Placed place.pos.len trace.start }
    ensures { result ≡ resumed place.pos.len place.count (state_of trace) }
{
    if trace.goes_on(place) && place.count < place.pos.len + place.pos.len {
        return at(trace, place, Stage::First);
    }
    ControlFlow::Break(trace.best)
}

fn at(trace: Trace, place: Place, stage: Stage) -> Step
    requires { Placed place.pos.len place × Placed place.pos.len trace.start }
    ensures { result ≡ Continue (scanner_at place.pos.len place.count (state_of trace) stage) }
{
    ControlFlow::Continue(Scanner {
        trace,
        place,
        stage,
    })
}
