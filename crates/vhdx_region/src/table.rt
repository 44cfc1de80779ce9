// One copy of the region table, given as its 65,536 bytes.
ghost use Rattle.std.specs.Prelude.{true, ◌≡◌, ◌≤◌, ◌<◌};
ghost use Rattle.decision.specs.Bounded.{every};
ghost use Rattle.vhdx_region.specs.Region.{entry_count, valid_table, entry as entry_at, pair_rule, entry_rule, entries_rule, entry_of};

use crate::{entry, known};
use extent::Extent;

const CHECKSUM: usize = 4;

const COUNT: usize = 8;

const COUNT_LIMIT: u32 = 2047;

#[tactic(auto, unfolding(crate::specs::Region::valid_table))]
pub fn is_valid(t: &[u8; 65536]) -> bool
    ensures { result ≡ valid_table t.now }
{
    field::bytes_are(t, 0, b"regi")
        && field::u32_at(t, CHECKSUM) == crc32c::checksum_zeroed(t, CHECKSUM)
        && field::u32_at(t, COUNT) <= COUNT_LIMIT
}

// How many entries a valid table has.
#[tactic(auto, using(crate::proofs::Entries::few))]
fn count(t: &[u8; 65536]) -> usize
    requires { valid_table t.now ≡ true }
    ensures { (result ≡ entry_count t.now) × (result ≤ 2047) }
{
    field::u32_at(t, COUNT) as usize
}

pub fn entry(t: &[u8; 65536], i: usize) -> &[u8; 32]
    requires { i < 2047 }
    ensures { result.now ≡ entry_at t.now i }
{
    field::array_at(t, 16 + 32 * i)
}

// Entry i is apart from every earlier one.
fn stands_apart(t: &[u8; 65536], i: usize) -> bool
    requires { i < 2047 }
    ensures { result ≡ every i (λ j. pair_rule (entry_at t.now j) (entry_at t.now i)) }
{
    let e = entry(t, i);
    (0..i).all(|j| entry::are_apart(entry(t, j), e))
}

#[tactic(auto, unfolding(crate::specs::Region::entry_rule))]
fn entry_keeps_rule(t: &[u8; 65536], i: usize, length: u64, log: Extent) -> bool
    requires { i < 2047 }
    ensures { result ≡ entry_rule length log t.now i }
{
    entry::keeps_rule(entry(t, i), length, log) && stands_apart(t, i)
}

// Every entry keeps its rule.
pub fn keeps_rules(t: &[u8; 65536], length: u64, log: Extent) -> bool
    requires { valid_table t.now ≡ true }
    ensures { result ≡ entries_rule length log t.now }
{
    (0..count(t)).all(|i| entry_keeps_rule(t, i, length, log))
}

// The entry of a known region, by its row.
pub fn find(t: &[u8; 65536], row: usize) -> Option<usize>
    requires { (valid_table t.now ≡ true) × (row < 2) }
    ensures { result ≡ entry_of t.now row }
{
    (0..count(t)).find(|i| guid::is_row(known::regions(), row, field::guid_at(entry(t, *i), 0)))
}
