// The ranges of sizes.
ghost use Rattle.std.specs.Prelude.{true, ◌≡◌, ◌%◌, ◌^◌, ◌<◌, nat_eq, nat_lt};
ghost use Rattle.vhdx_facts.specs.Ranges.{sector_size_rule, block_size_rule, disk_size_rule, sizes_rule};

use crate::Facts;

// 64 TiB
const DISK_SIZE_LIMIT: u64 = 70368744177664;

pub fn is_sector_size(n: u64) -> bool
    ensures { result ≡ sector_size_rule n }
{
    n == 512 || n == 4096
}

pub fn is_block_size(n: u64) -> bool
    ensures { result ≡ block_size_rule n }
{
    0 < block_shift(n)
}

// The binary logarithm of a block size, so that a shift divides by it; 0 of any other number.
pub fn block_shift(n: u64) -> u8
    ensures is_size { nat_lt 0 result ≡ block_size_rule n }
    ensures power { block_size_rule n ≡ true → 2 ^ result ≡ n }
    ensures upper_bound { result < 64 }
{
    match n {
        1048576 => 20,
        2097152 => 21,
        4194304 => 22,
        8388608 => 23,
        16777216 => 24,
        33554432 => 25,
        67108864 => 26,
        134217728 => 27,
        268435456 => 28,
        _ => 0,
    }
}

pub fn is_disk_size(sector_size: u64, n: u64) -> bool
    requires { sector_size_rule sector_size ≡ true }
    ensures { result ≡ disk_size_rule sector_size n }
{
    is_whole_sectors(sector_size, n) && sector_size <= n && n <= DISK_SIZE_LIMIT
}

// Both divisors are written out: this is asked at every lookup, and a division by a number that is not known when the code is
// compiled is slow.
fn is_whole_sectors(sector_size: u64, n: u64) -> bool
    requires { sector_size_rule sector_size ≡ true }
    ensures { result ≡ nat_eq (n % sector_size) 0 }
{
    if sector_size == 512 {
        n % 512 == 0
    } else {
        n % 4096 == 0
    }
}

// All four sizes are in their ranges. The sector size comes first: no remainder by 0 is formed.
pub fn sizes_keep_rules(facts: Facts) -> bool
    ensures { result ≡ sizes_rule facts }
{
    is_sector_size(facts.logical_sector_size)
        && is_sector_size(facts.physical_sector_size)
        && is_block_size(facts.block_size)
        && is_disk_size(facts.logical_sector_size, facts.disk_size)
}
