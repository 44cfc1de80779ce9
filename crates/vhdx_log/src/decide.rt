// What a found sequence asks for, or its refusal: 6 to 8 in this order, each decided over the whole sequence.
ghost use Rattle.std.specs.Prelude.{◌&&◌, List, [], ◌≡◌, ℕ, nat_le, length as length_of};
ghost use Rattle.vhdx_walk.specs.Entries.{length_limit};
ghost use Rattle.vhdx_walk.specs.Bytes.{entries_from};
ghost use Rattle.vhdx_walk.specs.Cursor.{Walkable};
ghost use Rattle.vhdx_log.specs.Work.{work, apply_within};
ghost use Rattle.vhdx_log.specs.Answers.{Stands};

use crate::{Work, survey};
use decision::Refusal;
use vhdx_entry::ring::RingPos;
use vhdx_entry::{header, ring};
use vhdx_sequence::Sequence;
use vhdx_walk::cursor::Cursor;
use vhdx_walk::entry;

// 128 TiB
const LIMIT: u64 = 140737488355328;

// 8 does not apply.
pub fn is_within(length: u64, capacity: u64) -> bool
    ensures { result ≡ (nat_le length capacity && nat_le length length_limit) }
{
    length <= capacity && length <= LIMIT
}

// Without a log nothing is to write and nothing grows.
pub fn without_log(length: u64, capacity: u64) -> Result<Work, Refusal>
    ensures { (log : List ℕ) → Stands log result (apply_within capacity length []) }
{
    if is_within(length, capacity) {
        Ok(Work {
            length,
            count: 0,
            cursor: Cursor {
                pos: RingPos { at: 0, len: 0 },
                left: 0,
                index: 0,
                data: 0,
            },
        })
    } else {
        Err(Refusal::FinalLength)
    }
}

// Of the log that stands at log_offset in the image of this length.
pub fn sequence(
    log: &[u8],
    log_offset: u64,
    length: u64,
    capacity: u64,
    found: Sequence,
) -> Result<Work, Refusal>
    requires { Walkable log.now found.start found.more }
    ensures { Stands log.now result (work (record { offset = log_offset; length = length_of log.now }) (entries_from log.now found.start found.more) length capacity) }
{
    let first = RingPos {
        at: found.start,
        len: log.len() / ring::SECTOR,
    };
    let head = ring::sector(log, entry::head(log, first, found.more));
    if length < header::flushed_file_offset(head) {
        return Err(Refusal::ShorterThanFlushed);
    }
    let cursor = Cursor {
        pos: first,
        left: found.more + 1,
        index: 0,
        data: 0,
    };
    let all = survey::all(log, cursor, log_offset, log.len() as u64);
    if all.lies {
        return Err(Refusal::ForbiddenSector);
    }
    let last = header::last_file_offset(head);
    let length = length.max(last).max(all.end);
    if is_within(length, capacity) {
        Ok(Work {
            length,
            count: all.count,
            cursor,
        })
    } else {
        Err(Refusal::FinalLength)
    }
}
