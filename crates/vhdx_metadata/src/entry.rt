// One entry of the metadata table, given as its 32 bytes.
ghost use Rattle.std.specs.Prelude.{◌≡◌, ◌<◌, nat_eq};
ghost use Rattle.field.specs.Fields.{number};
ghost use Rattle.vhdx_metadata.specs.Table.{identifier, item_extent, is_user, is_required, unique_rule, is_known, own_rule};
ghost use Rattle.vhdx_metadata.specs.Items.{is_item};

use crate::{known, location};
use extent::Extent;
use field::Guid;

pub fn extent(e: &[u8; 32]) -> Extent
    ensures { result ≡ item_extent e.now }
{
    Extent {
        offset: field::u32_at(e, 16) as u64,
        length: field::u32_at(e, 20) as u64,
    }
}

fn is_user(e: &[u8; 32]) -> bool
    ensures { result ≡ is_user e.now }
{
    field::u32_at(e, 24) % 2 == 1
}

fn is_required(e: &[u8; 32]) -> bool
    ensures { result ≡ is_required e.now }
{
    field::u32_at(e, 24) / 4 % 2 == 1
}

// A system item whose identifier is a known one.
fn is_known(e: &[u8; 32]) -> bool
    ensures { result ≡ is_known e.now }
{
    !is_user(e) && guid::row(known::identifiers(), field::guid_at(e, 0)).is_some()
}

// The entry of the known item in this row.
pub fn is_item(e: &[u8; 32], row: usize) -> bool
    requires { row < 6 }
    ensures { result ≡ is_item row e.now }
{
    !is_user(e) && guid::is_row(known::identifiers(), row, field::guid_at(e, 0))
}

// The rules that the entry keeps by itself, in a region of this length.
#[tactic(auto, unfolding(crate::specs::Table::own_rule))]
pub fn keeps_rule(e: &[u8; 32], region_length: u64) -> bool
    ensures { result ≡ own_rule region_length e.now }
{
    location::keeps_rule(extent(e), region_length) && (is_known(e) || !is_required(e))
}

// The identifier of an entry is this one. Not by `field::guid_is`, which reads both halves: most entries differ in the first.
fn has_id(e: &[u8; 32], id: Guid) -> bool
    ensures { result ≡ nat_eq (identifier e.now) (number id) }
{
    field::u64_at(e, 0) == id.low && field::u64_at(e, 8) == id.high
}

// Two entries differ in identifier or in IsUser.
#[tactic(auto, using(crate::proofs::Laws::identified))]
pub fn are_distinct(earlier: &[u8; 32], e: &[u8; 32]) -> bool
    ensures { result ≡ unique_rule earlier.now e.now }
{
    !has_id(earlier, field::guid_at(e, 0))
        || field::u32_at(earlier, 24) % 2 != field::u32_at(e, 24) % 2
}
