// The metadata table, which starts its region.
ghost use Rattle.std.specs.Prelude.{true, ◌≡◌, ◌%◌, ◌≤◌, ◌<◌, length as length_of};
ghost use Rattle.decision.specs.Bounded.{every};
ghost use Rattle.extent.specs.Extent.{mib};
ghost use Rattle.vhdx_metadata.specs.Table.{entry_count, table_rule, entry as entry_at, unique_rule, entry_rule, entries_rule, metadata_rule};
ghost use Rattle.vhdx_metadata.specs.Items.{entry_of};

use crate::entry;

const COUNT_LIMIT: u16 = 2047;

#[tactic(auto, unfolding(crate::specs::Table::table_rule))]
fn header_keeps_rule(region: &[u8]) -> bool
    requires { 65536 ≤ length_of region.now }
    ensures { result ≡ table_rule region.now }
{
    field::bytes_are(region, 0, b"metadata") && field::u16_at(region, 10) <= COUNT_LIMIT
}

// How many entries a table that keeps its rule has.
fn count(region: &[u8]) -> usize
    requires { (65536 ≤ length_of region.now) × (table_rule region.now ≡ true) }
    ensures { (result ≡ entry_count region.now) × (result ≤ 2047) }
{
    field::u16_at(region, 10) as usize
}

pub fn entry(region: &[u8], i: usize) -> &[u8; 32]
    requires { (65536 ≤ length_of region.now) × (i < 2047) }
    ensures { result.now ≡ entry_at region.now i }
{
    let at = 32 + 32 * i;
    // a part of 32 bytes, so that no length is tested for each entry
    field::array_at(&region[at..at + 32], 0)
}

// Entry i is distinct from every earlier one. Neither inlined nor with e's identifier at hand: either way the loop's time hangs on
// where the linker puts it (docs/DESIGN-PASS.md, Speed).
#[inline(never)]
fn is_distinct(region: &[u8], i: usize) -> bool
    requires { (65536 ≤ length_of region.now) × (i < 2047) }
    ensures { result ≡ every i (λ j. unique_rule (entry_at region.now j) (entry_at region.now i)) }
{
    let e = entry(region, i);
    (0..i).all(|j| entry::are_distinct(entry(region, j), e))
}

#[tactic(auto, unfolding(crate::specs::Table::entry_rule))]
fn entry_keeps_rule(region: &[u8], i: usize) -> bool
    requires { (65536 ≤ length_of region.now) × (i < 2047) }
    ensures { result ≡ entry_rule region.now i }
{
    entry::keeps_rule(entry(region, i), region.len() as u64) && is_distinct(region, i)
}

// Every entry keeps its rule.
fn entries_keep_rules(region: &[u8]) -> bool
    requires { (65536 ≤ length_of region.now) × (table_rule region.now ≡ true) }
    ensures { result ≡ entries_rule region.now }
{
    (0..count(region)).all(|i| entry_keeps_rule(region, i))
}

// 12 does not apply.
#[tactic(auto, unfolding(crate::specs::Table::metadata_rule))]
pub fn keeps_rules(region: &[u8]) -> bool
    requires { length_of region.now % mib ≡ 0 }
    ensures { result ≡ metadata_rule region.now }
{
    !region.is_empty() && header_keeps_rule(region) && entries_keep_rules(region)
}

// The entry of the known item in this row.
pub fn find(region: &[u8], row: usize) -> Option<usize>
    requires { (65536 ≤ length_of region.now) × (table_rule region.now ≡ true) × (row < 6) }
    ensures { result ≡ entry_of region.now row }
{
    (0..count(region)).find(|i| entry::is_item(entry(region, *i), row))
}
