// The log's ring, in sectors of 4,096 bytes. A position never leaves the ring, and a sector never straddles its end.
ghost use Rattle.std.specs.Prelude.{◌≡◌, ◌+◌, ◌*◌, ◌%◌, ◌^◌, ◌≤◌, ◌<◌, length};
ghost use Rattle.vhdx_entry.specs.Ring.{sector_at, advanced, offset_in, On};

pub const SECTOR: usize = 4096;

// A position in a ring of `len` sectors.
#[derive(Clone, Copy, Debug, PartialEq, Eq, Drop)]
pub struct RingPos {
    pub at: usize,
    pub len: usize,
}

impl RingPos {
    // The position `by` sectors on, past the ring's end at its start again.
    pub fn advance(self, by: usize) -> RingPos
        requires { (self.at < self.len) × (by ≤ self.len) }
        ensures value { result ≡ advanced self by }
        ensures on_ring { (result.at < self.len) × (result.len ≡ self.len) }
    {
        let before_end = self.len - self.at;
        RingPos {
            at: if by < before_end {
                self.at + by
            } else {
                by - before_end
            },
            ..self
        }
    }

    // Where in the log byte n of what starts at the position stands: the rest of its sector is in the log too.
    pub fn offset(self, n: usize) -> usize
        requires { (self.at < self.len) × (n < self.len * 4096) × (self.len * 4096 < 2 ^ 64) }
        ensures value { result ≡ offset_in self n }
        ensures sector_fits { result + 4096 ≤ self.len * 4096 + n % 4096 }
    {
        self.advance(n / SECTOR).at * SECTOR + n % SECTOR
    }
}

pub fn sector(log: &[u8], pos: RingPos) -> &[u8; 4096]
    requires { On log.now pos }
    ensures { result.now ≡ sector_at log.now pos.at }
{
    field::array_at(log, pos.at * SECTOR)
}
