// The layout of the block allocation table, of facts whose sizes are in their ranges.
ghost use Rattle.std.specs.Prelude.{true, ◌≡◌, ◌/◌, ◌^◌, ◌≤◌, ◌<◌};
ghost use Rattle.vhdx_facts.specs.Ranges.{sizes_rule};
ghost use Rattle.vhdx_facts.specs.Geometry.{ratio as ratio_of, chunks as chunks_of, needed_entries, bat_rule, bitmap_entry};

use crate::{Facts, ranges};

// A chunk's bitmap of 1 MiB has a bit for each of its sectors.
pub const SECTORS_IN_CHUNK: u64 = 8388608;

// How many sectors the disk has. As in `ranges`, the divisors are written out.
pub fn sectors(facts: Facts) -> u64
    requires { sizes_rule facts ≡ true }
    ensures { result ≡ facts.disk_size / facts.logical_sector_size }
{
    if facts.logical_sector_size == 512 {
        facts.disk_size / 512
    } else {
        facts.disk_size / 4096
    }
}

pub fn ratio(facts: Facts) -> u64
    requires { sizes_rule facts ≡ true }
    ensures { result ≡ ratio_of facts }
{
    (SECTORS_IN_CHUNK * facts.logical_sector_size) >> ranges::block_shift(facts.block_size)
}

// A chunk is 2^23 sectors, whatever the sizes are.
pub fn chunks(facts: Facts) -> u64
    requires { sizes_rule facts ≡ true }
    ensures { result ≡ chunks_of facts }
{
    sectors(facts).div_ceil(SECTORS_IN_CHUNK)
}

pub fn needed_entries(facts: Facts) -> u64
    requires { sizes_rule facts ≡ true }
    ensures { result ≡ needed_entries facts }
{
    chunks(facts) * (ratio(facts) + 1)
}

// The BAT region is long enough.
pub fn bat_keeps_rule(facts: Facts) -> bool
    requires { sizes_rule facts ≡ true }
    ensures { result ≡ bat_rule facts }
{
    needed_entries(facts) * 8 <= facts.bat.length
}

// The number of the entry of chunk c's sector bitmap. A ratio is at most 2^15.
pub fn bitmap_entry(ratio: u64, c: u64) -> u64
    requires { (ratio ≤ 2 ^ 15) × (c < 2 ^ 32) }
    ensures { result ≡ bitmap_entry ratio c }
{
    c * (ratio + 1) + ratio
}
