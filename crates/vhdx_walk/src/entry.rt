// From an entry of a sequence to the next, and on to its head: each starts where the one before ended.
ghost use Rattle.std.specs.Prelude.{◌≡◌};
ghost use Rattle.vhdx_entry.specs.Ring.{ring as ring_of, On};
ghost use Rattle.vhdx_entry.specs.Entry.{behind};
ghost use Rattle.vhdx_walk.specs.Entries.{head as head_of};
ghost use Rattle.vhdx_walk.specs.Bytes.{log_entry, entries_from};
ghost use Rattle.vhdx_walk.specs.Cursor.{Readable, AllReadable};

use vhdx_entry::ring::RingPos;
use vhdx_entry::{header, ring};

pub fn next(log: &[u8], pos: RingPos) -> RingPos
    requires { On log.now pos × Readable (ring_of log.now pos.at) }
    ensures { On log.now result × (result.at ≡ behind log.now pos.at) }
{
    pos.advance(header::entry_length(ring::sector(log, pos)) / ring::SECTOR)
}

// The last of the entry at a position and the `more` after it.
pub fn head(log: &[u8], first: RingPos, more: u64) -> RingPos
    requires { On log.now first × AllReadable log.now first.at more }
    ensures { On log.now result × (head_of (entries_from log.now first.at more) ≡ log_entry (ring_of log.now result.at)) }
{
    let mut pos = first;
    for _ in 0..more {
        pos = next(log, pos);
    }
    pos
}
