// What an entry has behind its header: descriptors, data sectors, and the checksum over all of it. Sector k of the entry at
// a position is the position's advance by k.
ghost use Rattle.std.specs.Prelude.{◌≡◌, cond, ◌&&◌, ◌+◌, ◌*◌, ◌≤◌, ◌<◌, length, take};
ghost use Rattle.decision.specs.Bounded.{every, only_if};
ghost use Rattle.crc32c.specs.Crc.{crc, zeroed};
ghost use Rattle.vhdx_entry.specs.Ring.{log_sector_size, ring as ring_of, sector_at, On};
ghost use Rattle.vhdx_entry.specs.Entry.{descriptor as descriptor_of, descriptor_start, is_data_descriptor, descriptor_count, sequence_number_of, data_before, size as size_of, descriptor_rule, descriptors_rule, data_sector_rule, data_sectors_rule, fits_rule, entry_length_rule, checksum_rule};

use crate::ring::RingPos;
use crate::{descriptor, header, ring};

// How many of the first count descriptors are data descriptors, if all keep their rule.
fn data_descriptors(log: &[u8], pos: RingPos, number: u64, count: usize) -> Option<usize>
    requires { On log.now pos × (descriptor_start count ≤ length log.now) × (count < 4294967296) }
    ensures { result ≡ only_if (every count (λ i. descriptor_rule number (descriptor_of (ring_of log.now pos.at) i))) (data_before (ring_of log.now pos.at) count) }
{
    let mut found: usize = 0;
    for i in 0..count {
        let d = descriptor::at(log, pos, i);
        if !descriptor::keeps_rule(d, number) {
            return None;
        }
        found = counted(d, found);
    }
    Some(found)
}

// One more where the descriptor is a data descriptor.
pub fn counted(d: &[u8; 32], so_far: usize) -> usize
    requires { so_far < 4294967296 }
    ensures { result ≡ so_far + cond (is_data_descriptor d.now) 1 0 }
{
    so_far + usize::from(descriptor::is_data(d))
}

// The length in sectors of an entry with count descriptors, if they keep their rule and it fits the log.
pub fn size(log: &[u8], pos: RingPos, number: u64, count: usize) -> Option<usize>
    requires { On log.now pos × (number ≡ sequence_number_of (ring_of log.now pos.at)) × (count ≡ descriptor_count (ring_of log.now pos.at)) × (count < 4294967296) }
    ensures { result ≡ only_if (fits_rule (ring_of log.now pos.at) && descriptors_rule (ring_of log.now pos.at)) (size_of (ring_of log.now pos.at)) }
{
    let front = descriptor::sectors(count);
    if pos.len < front {
        return None;
    }
    let data = data_descriptors(log, pos, number, count)?;
    if data <= pos.len - front {
        Some(front + data)
    } else {
        None
    }
}

// The count sectors of an entry from its sector number `from` on are data sectors of this sequence number.
fn data_sectors(log: &[u8], pos: RingPos, number: u64, from: usize, count: usize) -> bool
    requires { On log.now pos × (from + count ≤ pos.len) }
    ensures { result ≡ every count (λ k. data_sector_rule number (sector_at (ring_of log.now pos.at) (from + k))) }
{
    (0..count).all(|k| is_data_sector(ring::sector(log, pos.advance(from + k)), number))
}

// "data" as a little-endian number.
const DATA: u32 = 0x61746164;

pub fn is_data_sector(s: &[u8; 4096], number: u64) -> bool
    ensures { result ≡ data_sector_rule number s.now }
{
    let high = field::u32_at(s, 4) as u64;
    let low = field::u32_at(s, 4092) as u64;
    // `&`, since `&&` is a branch at each test: its proof was tried, and is long
    (field::u32_at(s, 0) == DATA) & (high * 4294967296 + low == number)
}

// The checksum of an entry of so many sectors, its own field taken as zero.
fn checksum(log: &[u8], pos: RingPos, sectors: usize) -> u32
    requires { On log.now pos × (1 ≤ sectors) × (sectors ≤ pos.len) }
    ensures { result ≡ crc (zeroed (take (sectors * log_sector_size) (ring_of log.now pos.at)) 4) }
{
    let mut state = crc32c::start_zeroed(ring::sector(log, pos), 4);
    for k in 1..sectors {
        state = crc32c::update(state, ring::sector(log, pos.advance(k)));
    }
    crc32c::finish(state)
}

// EntryLength, data sectors and checksum of an entry that has this size.
pub fn ends_well(log: &[u8], pos: RingPos, number: u64, count: usize, size: usize) -> bool
    requires { On log.now pos × (number ≡ sequence_number_of (ring_of log.now pos.at)) × (count ≡ descriptor_count (ring_of log.now pos.at)) × (count < 4294967296) × (size ≡ size_of (ring_of log.now pos.at)) × (size ≤ pos.len) }
    ensures { result ≡ (entry_length_rule (ring_of log.now pos.at) && (data_sectors_rule (ring_of log.now pos.at) && checksum_rule (ring_of log.now pos.at))) }
{
    let h = ring::sector(log, pos);
    let front = descriptor::sectors(count);
    header::entry_length(h) == size * 4096
        && data_sectors(log, pos, number, front, size - front)
        && header::checksum(h) == checksum(log, pos, size)
}
