// Places on the scan's way: over the ring's sectors once, and on past its end.
ghost use Rattle.std.specs.Prelude.{◌≡◌, ◌+◌, ◌≤◌, ◌<◌, ◌^◌};
ghost use Rattle.vhdx_sequence.specs.Scan.{moved, away as away_of};

use vhdx_entry::ring::RingPos;

// A position in the ring, and how many sectors on from the log's first sector it was reached, laps counted.
#[derive(Clone, Copy)]
pub struct Place {
    pub pos: RingPos,
    pub count: usize,
}

impl Place {
    pub fn advance(self, by: usize) -> Place
        requires { (self.pos.at < self.pos.len) × (by ≤ self.pos.len) × (self.count + by < 2 ^ 64) }
        ensures { result ≡ moved self by }
    {
        Place {
            pos: self.pos.advance(by),
            count: self.count + by,
        }
    }
}

// How many sectors on in the ring sector `to` lies from a position.
pub fn away(from: RingPos, to: usize) -> usize
    requires { (from.at < from.len) × (to < from.len) × (from.len < 2 ^ 32) }
    ensures { result ≡ away_of from.len from.at to }
{
    if from.at <= to {
        to - from.at
    } else {
        to + (from.len - from.at)
    }
}
