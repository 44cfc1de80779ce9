// A descriptor: where it stands in its entry, and what its 32 bytes say.
ghost use Rattle.std.specs.Prelude.{◌≡◌, ◌+◌, ◌≤◌, ◌<◌, length};
ghost use Rattle.vhdx_entry.specs.Ring.{ring as ring_of, On};
ghost use Rattle.vhdx_entry.specs.Entry.{descriptor as descriptor_of, descriptor_start, descriptor_sectors, is_data_descriptor, zero_length, file_offset, descriptor_rule};

use crate::ring::RingPos;

// Descriptor i of the entry at a position.
pub fn at(log: &[u8], pos: RingPos, i: usize) -> &[u8; 32]
    requires { On log.now pos × (descriptor_start (i + 1) ≤ length log.now) }
    ensures { result.now ≡ descriptor_of (ring_of log.now pos.at) i }
{
    field::array_at(log, pos.offset(64 + 32 * i))
}

// The sectors that an entry's header and count descriptors take.
pub fn sectors(count: usize) -> usize
    requires { count < 4294967296 }
    ensures { result ≡ descriptor_sectors count }
{
    (64 + 32 * count + 4095) / 4096
}

// "desc" and "zero" as little-endian numbers.
const DESC: u32 = 0x63736564;

const ZERO: u32 = 0x6f72657a;

pub fn is_data(d: &[u8; 32]) -> bool
    ensures { result ≡ is_data_descriptor d.now }
{
    field::u32_at(d, 0) == DESC
}

pub fn zero_length(d: &[u8; 32]) -> u64
    ensures { result ≡ zero_length d.now }
{
    field::u64_at(d, 8)
}

pub fn file_offset(d: &[u8; 32]) -> u64
    ensures { result ≡ file_offset d.now }
{
    field::u64_at(d, 16)
}

// Of an entry with this sequence number.
pub fn keeps_rule(d: &[u8; 32], number: u64) -> bool
    ensures { result ≡ descriptor_rule number d.now }
{
    let data = is_data(d);
    let zero = field::u32_at(d, 0) == ZERO;
    let length = zero_length(d);
    let offset = file_offset(d);
    // `&`, since `&&` is a branch at each test: its proof was tried, and is long
    (data | (zero & (length % 4096 == 0)))
        & ((offset % 4096 == 0) & (field::u64_at(d, 24) == number))
}
