// The walk over a found sequence's sectors, in the order in which they are written. A walk is handed in, and handed back
// moved; a run of sectors is passed as a whole, whatever its length.
// Its modules: `run`, a descriptor's sectors; `entry`, from an entry to the next and to the head; `cursor`, the walk over a
// sequence's descriptors.
#![tactic(auto)]

pub mod cursor;
pub mod entry;
pub mod run;

ghost use Rattle.std.specs.Prelude.{◌≡◌, ◌+◌, ◌*◌, ◌/◌, ◌≤◌, ◌<◌, drop};
ghost use Rattle.std.proofs.Math.ListN.{get_elem?};
ghost use Rattle.vhdx_walk.specs.Entries.{furthest, length_limit};
ghost use Rattle.vhdx_walk.specs.Cursor.{descriptors_left, Placed};
ghost use Rattle.vhdx_walk.specs.Walk.{sectors_left, next_of, HeldNext, Ready, Settled, walk_from, Following};

use cursor::{Cursor, Move};
use run::{Run, Source};

// The rest of a run of sectors, and the cursor behind the run's descriptor.
#[derive(Clone, Copy)]
pub struct Walk {
    pub run: Run,
    pub cursor: Cursor,
}

// A sector to write: its offset in the file, and where its bytes are.
#[derive(Clone, Copy)]
pub struct SectorWrite {
    pub offset: u64,
    pub source: Source,
}

impl Walk {
    // The walk past k sectors, at the next one or at the end.
    pub fn forward(self, log: &[u8], k: u64) -> Walk
        requires { Ready log.now self }
        ensures ready { Ready log.now result }
        ensures rest { (sectors_left log.now result ≡ drop k (sectors_left log.now self)) × Settled log.now result }
    {
        let mut walk = self;
        let mut left = k;
        // a `while`: a run is passed as a whole
        while walk.run.length / 4096 <= left {
            left -= walk.run.length / 4096;
            let Some(next) = load(log, walk.cursor) else {
                return from(walk.cursor);
            };
            walk = next;
        }
        walk.within(log, left)
    }

    // Past j sectors of the run, which has more.
    fn within(self, log: &[u8], j: u64) -> Walk
        requires { Ready log.now self × (j < self.run.length / 4096) }
        ensures ready { Ready log.now result }
        ensures rest { (sectors_left log.now result ≡ drop j (sectors_left log.now self)) × (4096 ≤ result.run.length) }
    {
        Walk {
            run: Run {
                offset: self.run.offset + 4096 * j,
                length: self.run.length - 4096 * j,
                ..self.run
            },
            ..self
        }
    }

    // The sector that a walk is at.
    pub fn current(self, log: &[u8]) -> Option<SectorWrite>
        requires { Ready log.now self × Settled log.now self }
        ensures next { next_of log.now result ≡ get_elem? (sectors_left log.now self) 0 }
        ensures held { HeldNext log.now result }
    {
        if self.run.length < 4096 {
            return None;
        }
        Some(SectorWrite {
            offset: self.run.offset,
            source: self.run.source,
        })
    }

    // Sector number k of those that are still to come.
    pub fn nth(self, log: &[u8], k: u64) -> Option<SectorWrite>
        requires { Ready log.now self }
        ensures next { next_of log.now result ≡ get_elem? (sectors_left log.now self) k }
        ensures held { HeldNext log.now result }
    {
        self.forward(log, k).current(log)
    }
}

// The walk that is at a cursor, with no run before it.
pub fn from(cursor: Cursor) -> Walk
    ensures { result ≡ walk_from cursor }
{
    Walk {
        run: Run {
            offset: 0,
            length: 0,
            source: Source::Zeros,
        },
        cursor,
    }
}

// What follows from a cursor on, by one move of it.
fn load(log: &[u8], cursor: Cursor) -> Option<Walk>
    requires { Placed log.now cursor × (furthest (descriptors_left log.now cursor) ≤ length_limit) }
    ensures { Following log.now cursor result }
{
    match cursor.next(log) {
        Move::Done => None,
        Move::Entry(next) => Some(from(next)),
        Move::Descriptor(run, next) => Some(Walk { run, cursor: next }),
    }
}
