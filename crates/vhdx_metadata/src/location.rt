// Where an item may lie.
ghost use Rattle.std.specs.Prelude.{◌≡◌};
ghost use Rattle.vhdx_metadata.specs.Table.{offset_rule, location_rule};

use extent::Extent;

// In a region of this length.
#[tactic(auto, unfolding(crate::specs::Table::location_rule))]
pub fn keeps_rule(item: Extent, region_length: u64) -> bool
    ensures { result ≡ location_rule region_length item }
{
    item.length <= extent::MIB && offset_keeps_rule(item, region_length)
}

// An item without bytes stands at 0; another one behind the table and inside the region.
fn offset_keeps_rule(item: Extent, region_length: u64) -> bool
    ensures { result ≡ offset_rule region_length item }
{
    if item.length == 0 {
        item.offset == 0
    } else {
        65536 <= item.offset && extent::is_inside(item.offset, item.length, region_length)
    }
}
