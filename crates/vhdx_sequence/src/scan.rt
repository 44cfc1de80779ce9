// The scan's state: the run of entries that it is in, and the best log sequence so far.
ghost use Rattle.std.specs.Prelude.{◌≡◌, ◌%◌, ◌≤◌, ◌<◌, ◌^◌};
ghost use Rattle.vhdx_entry.specs.Entry.{signature_rule, sequence_number_of};
ghost use Rattle.vhdx_sequence.specs.Scan.{Placed, state_of, fresh, run_from, goes_on, headed_by, taken_by, taken, Taking, Takes};

use crate::lap::Place;
use crate::{Sequence, lap, order};
use vhdx_entry::ring::RingPos;
use vhdx_entry::{Entry, header, ring};

// A run is a list of valid entries, each starting where the one before ended, numbers rising by one. `start` is the place where
// the present run began, `next` the count of the place where its last entry ends, `number` that entry's number.
#[derive(Clone, Copy)]
pub struct Trace {
    pub start: Place,
    pub next: usize,
    pub number: u64,
    pub best: Option<Sequence>,
}

impl Trace {
    // No entry was met yet, in a ring of `len` sectors.
    pub fn new(len: usize) -> Trace
        ensures state { state_of result ≡ fresh }
        ensures start { (result.start.pos.at ≡ 0) × (result.start.pos.len ≡ len) }
    {
        Trace {
            start: Place {
                pos: RingPos { at: 0, len },
                count: 0,
            },
            next: 0,
            number: 0,
            best: None,
        }
    }

    // The first lap is not done, or a run that began in it goes on.
    pub fn goes_on(self, place: Place) -> bool
        ensures { result ≡ goes_on place.pos.len place.count (state_of self) }
    {
        place.count < place.pos.len
            || (place.count <= self.next && self.start.count < place.pos.len)
    }

    // The entry that starts at a place is taken up.
    pub fn take(self, log: &[u8], place: Place, e: Entry) -> Trace
        requires { Takes log.now place self e }
        ensures state { state_of result ≡ taken log.now place.pos.len place.count (state_of self) e }
        ensures placed { Placed place.pos.len result.start }
    {
        let tail = ring::sector(
            log,
            RingPos {
                at: e.tail,
                ..place.pos
            },
        );
        self.take_by(tail, place, e)
    }

    // The same, given the sector that its Tail names.
    pub fn take_by(self, tail: &[u8; 4096], place: Place, e: Entry) -> Trace
        requires { Taking place self e }
        ensures state { state_of result ≡ taken_by place.pos.len place.count (run_from place.count (state_of self) e.number) (state_of self) e (signature_rule tail.now) (sequence_number_of tail.now) }
        ensures placed { Placed place.pos.len result.start }
    {
        let start = run_from(self, place, e.number);
        Trace {
            start,
            next: place.count + e.size,
            number: e.number,
            best: order::better(self.best, headed(tail, place, start, e)),
        }
    }
}

// Where the run began that an entry with this number at a place is in.
fn run_from(trace: Trace, place: Place, number: u64) -> Place
    requires { Placed place.pos.len place × Placed place.pos.len trace.start }
    ensures count { result.count ≡ run_from place.count (state_of trace) number }
    ensures placed { Placed place.pos.len result }
{
    if place.count == trace.next && trace.number < number && number - trace.number == 1 {
        trace.start
    } else {
        place
    }
}

// The sequence whose head is the entry `e` at a place, in the run from `start` on. `tail` is the sector that its Tail names: an
// entry of the run starts there if it is marked and lies in the run.
fn headed(tail: &[u8; 4096], place: Place, start: Place, e: Entry) -> Option<Sequence>
    requires { (start.count ≤ place.count) × (e.tail < start.pos.len) × (start.pos.len < 2 ^ 32) × (start.pos.at ≡ start.count % start.pos.len) }
    ensures { result ≡ headed_by start.pos.len place.count start.count e (signature_rule tail.now) (sequence_number_of tail.now) }
{
    let marked = header::is_marked(tail);
    let inside = lap::away(start.pos, e.tail) <= place.count - start.count;
    (marked && inside).then_some(Sequence {
        start: e.tail,
        more: e.number.saturating_sub(header::sequence_number(tail)),
        number: e.number,
    })
}
