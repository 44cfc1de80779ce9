// A descriptor's sectors as a run: one behind the other from an offset in the file on, all with the same bytes.
ghost use Rattle.std.specs.Prelude.{◌≡◌, ◌+◌, ◌≤◌, ◌<◌, length};
ghost use Rattle.vhdx_entry.specs.Ring.{ring as ring_of, On};
ghost use Rattle.vhdx_entry.specs.Entry.{descriptor as descriptor_bytes, descriptor_start, descriptor_sectors, descriptor_count, file_offset, data_sector};
ghost use Rattle.vhdx_walk.specs.Entries.{writes};
ghost use Rattle.vhdx_walk.specs.Bytes.{sector_bytes};
ghost use Rattle.vhdx_walk.specs.Cursor.{descriptor_in, Proper};

use vhdx_entry::ring::RingPos;
use vhdx_entry::{descriptor, ring};

// Where the bytes of a run's sectors are: nowhere, or in the log, by the offsets in it of a data descriptor and its data
// sector.
#[derive(Clone, Copy)]
pub enum Source {
    Zeros,
    Data { descriptor: usize, sector: usize },
}

// The length is in bytes: a data descriptor's is 4,096.
#[derive(Clone, Copy)]
pub struct Run {
    pub offset: u64,
    pub length: u64,
    pub source: Source,
}

// The run of data descriptor `index` of the entry at a position that has `count` descriptors; `rank` data descriptors stand
// before it.
pub fn of_data(log: &[u8], pos: RingPos, count: usize, index: usize, rank: usize) -> Run
    requires { On log.now pos × (count ≡ descriptor_count (ring_of log.now pos.at)) × (count < 4294967296) × (descriptor_start (index + 1) ≤ length log.now) × (descriptor_sectors count + rank < pos.len) }
    ensures descriptor { descriptor_in log.now result ≡ writes (file_offset (descriptor_bytes (ring_of log.now pos.at) index)) (sector_bytes (descriptor_bytes (ring_of log.now pos.at) index) (data_sector (ring_of log.now pos.at) rank)) }
    ensures proper { Proper log.now result }
{
    let place = pos.offset(64 + 32 * index);
    let sector = pos.offset((descriptor::sectors(count) + rank) * ring::SECTOR);
    Run {
        offset: descriptor::file_offset(descriptor::at(log, pos, index)),
        length: 4096,
        source: Source::Data {
            descriptor: place,
            sector,
        },
    }
}
