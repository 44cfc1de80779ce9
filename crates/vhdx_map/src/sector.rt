// Where a sector stands: its block, how far into it, and the numbers of the BAT entries that say where the block and its
// bitmap are. Of facts whose sizes are in their ranges and a sector that the disk has. No number is divided by another that is
// not known when the code is compiled: block sizes are powers of two, and a chunk is 2^23 sectors.
ghost use Rattle.std.specs.Prelude.{true, ◌≡◌};
ghost use Rattle.vhdx_facts.specs.Ranges.{sizes_rule};
ghost use Rattle.vhdx_map.specs.Lookup.{block_of, into_block, payload_index, bitmap_index, sector_rule};

use vhdx_facts::{Facts, geometry, ranges};

pub fn block(facts: Facts, sector: u64) -> u64
    requires { (sizes_rule facts ≡ true) × (sector_rule facts sector ≡ true) }
    ensures { result ≡ block_of facts sector }
{
    (sector * facts.logical_sector_size) >> ranges::block_shift(facts.block_size)
}

pub fn into_block(facts: Facts, sector: u64) -> u64
    requires { (sizes_rule facts ≡ true) × (sector_rule facts sector ≡ true) }
    ensures { result ≡ into_block facts sector }
{
    sector * facts.logical_sector_size - block(facts, sector) * facts.block_size
}

// The number of the block's entry: each chunk before its own has put one bitmap entry before it.
pub fn payload_index(facts: Facts, sector: u64) -> u64
    requires { (sizes_rule facts ≡ true) × (sector_rule facts sector ≡ true) }
    ensures { result ≡ payload_index facts sector }
{
    block(facts, sector) + sector / geometry::SECTORS_IN_CHUNK
}

// The number of the entry of the bitmap of the block's chunk.
pub fn bitmap_index(facts: Facts, sector: u64) -> u64
    requires { (sizes_rule facts ≡ true) × (sector_rule facts sector ≡ true) }
    ensures { result ≡ bitmap_index facts sector }
{
    geometry::bitmap_entry(geometry::ratio(facts), sector / geometry::SECTORS_IN_CHUNK)
}
