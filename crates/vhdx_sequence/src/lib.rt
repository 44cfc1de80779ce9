// The active log sequence: of all lists of entries in the log's ring that are log sequences, the one that is to be replayed.
// Its modules: `lap`, places on the way over the ring; `order`, which of two sequences is preferred; `scan`, the state of the
// one way over the ring that finds the active one.
#![tactic(auto)]

pub mod lap;
mod order;
pub mod scan;

ghost use Rattle.std.specs.Prelude.{◌≡◌, ◌%◌, ◌<◌, ◌^◌, length};
ghost use Rattle.vhdx_sequence.specs.Sequence.{active_sequence};

use scan::Trace;

// A log sequence: its first sector, how many entries follow its first, and its head's number.
#[derive(Clone, Copy, Debug, PartialEq, Eq, Drop)]
pub struct Sequence {
    pub start: usize,
    pub more: u64,
    pub number: u64,
}

// Of a log of whole sectors, in an image whose log has this identifier. One lap over the ring, and on past its end only while a
// run of entries that began in the lap goes on. Valid entries do not overlap, so that the scan goes on behind each; and each is
// in one run, so that a sequence with this entry as its head starts in the run, at the entry's Tail.
pub fn active(log: &[u8], guid: field::Guid) -> Option<Sequence>
    requires { (length log.now % 4096 ≡ 0) × (length log.now < 2 ^ 32) }
    ensures { result ≡ active_sequence log.now guid }
{
    let mut trace = Trace::new(log.len() / vhdx_entry::ring::SECTOR);
    // the log's first sector
    let mut place = trace.start;
    // a `while`: the scan's state says where it ends, and a turn goes past a whole entry
    while trace.goes_on(place) {
        match vhdx_entry::read(log, place.pos, guid) {
            Some(e) => {
                trace = trace.take(log, place, e);
                place = place.advance(e.size);
            }
            None => place = place.advance(1),
        }
    }
    trace.best
}
