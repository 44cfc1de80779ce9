// The known items of a region whose table and entries keep their rules.
ghost use Rattle.std.specs.Prelude.{true, ◌≡◌, ◌≤◌, ◌<◌, length as length_of, get_or, Option, None, Some, option_map};
ghost use Rattle.decision.specs.Bounded.{every};
ghost use Rattle.vhdx_metadata.specs.Known.{known_lengths};
ghost use Rattle.vhdx_metadata.specs.Table.{entry as entry_at, item_extent, table_rule, metadata_rule};
ghost use Rattle.vhdx_metadata.specs.Items.{entry_of, has_its_length, is_there, extent_of, item_of, has_parent_of, needed_rule};

use crate::{entry, known, table};
use extent::Extent;

// The length is that of the known item in this row.
fn has_its_length(row: usize, length: u64) -> bool
    requires { row < 6 }
    ensures { result ≡ has_its_length row length }
{
    known::length(row).is_none_or(|known| length == known)
}

// Where the known item in this row lies, if the table has it.
fn find(region: &[u8], row: usize) -> Option<Extent>
    requires { (65536 ≤ length_of region.now) × (table_rule region.now ≡ true) × (row < 6) }
    ensures { result ≡ option_map (λ i. item_extent (entry_at region.now i)) (entry_of region.now row) }
{
    table::find(region, row).map(|i| entry::extent(table::entry(region, i)))
}

// The known item in this row is there and of its length.
fn is_there(region: &[u8], row: usize) -> bool
    requires { (65536 ≤ length_of region.now) × (table_rule region.now ≡ true) × (row < 6) }
    ensures { result ≡ is_there region.now row }
{
    find(region, row).is_some_and(|item| has_its_length(row, item.length))
}

// The first five are there, which every disk needs.
fn five_are_there(region: &[u8]) -> bool
    requires { (65536 ≤ length_of region.now) × (table_rule region.now ≡ true) }
    ensures { result ≡ every 5 (is_there region.now) }
{
    (0..5).all(|row| is_there(region, row))
}

// Where the known item in this row lies.
pub fn extent(region: &[u8], row: usize) -> Extent
    requires { (65536 ≤ length_of region.now) × (table_rule region.now ≡ true) × (row < 6) }
    ensures { result ≡ extent_of region.now row }
{
    find(region, row).unwrap_or(extent::nowhere())
}

// The bytes of an item of fixed length that is there.
pub fn bytes(region: &[u8], row: usize) -> &[u8]
    requires { (65536 ≤ length_of region.now) × (metadata_rule region.now ≡ true) × (row < 5) × (is_there region.now row ≡ true) }
    ensures bytes { result.now ≡ item_of region.now row }
    ensures len { get_or known_lengths row None ≡ Some (length_of result.now) }
{
    extent::part(region, extent(region, row))
}

#[tactic(auto, unfolding(crate::specs::Items::has_parent_of))]
pub fn has_parent(region: &[u8]) -> bool
    requires { (65536 ≤ length_of region.now) × (metadata_rule region.now ≡ true) × (is_there region.now 0 ≡ true) }
    ensures { result ≡ has_parent_of region.now }
{
    field::u32_at(bytes(region, known::FILE_PARAMETERS), 4) / 2 % 2 == 1
}

// 13 does not apply.
#[tactic(auto, unfolding(crate::specs::Items::needed_rule))]
pub fn needed_are_there(region: &[u8]) -> bool
    requires { (65536 ≤ length_of region.now) × (metadata_rule region.now ≡ true) }
    ensures { result ≡ needed_rule region.now }
{
    five_are_there(region) && (!has_parent(region) || is_there(region, known::PARENT_LOCATOR))
}
