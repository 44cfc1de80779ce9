// The metadata of a VHDX file, given as its metadata region: the needed items' values, or the refusal: document 01's 12 and 13.
// Its modules: `known`, the six known system identifiers with their lengths; `location`, where an item may lie; `entry`, one entry
// of the table; `table`, all of them; `item`, the known items.
#![tactic(auto)]

mod entry;
mod item;
mod known;
pub mod location;
mod table;

ghost use Rattle.std.specs.Prelude.{true, ◌≡◌, ◌%◌, length as length_of};
ghost use Rattle.decision.specs.Refusal.{outcome};
ghost use Rattle.extent.specs.Extent.{mib};
ghost use Rattle.vhdx_metadata.specs.Table.{metadata_rule};
ghost use Rattle.vhdx_metadata.specs.Items.{needed_rule, contents as contents_of, items};

use decision::Refusal;
use extent::Extent;

// What the items say. The locator's extent is in the region, and nowhere if there is no such item.
#[derive(Clone, Copy, Debug, PartialEq, Eq, Drop)]
pub struct Items {
    pub block_size: u64,
    pub has_parent: bool,
    pub disk_size: u64,
    pub logical_sector_size: u64,
    pub physical_sector_size: u64,
    pub disk_id: field::Guid,
    pub locator: Extent,
}

// Of a metadata region, whose length is a multiple of 1 MiB.
#[tactic(auto, unfolding(crate::specs::Items::items))]
pub fn read(region: &[u8]) -> Result<Items, Refusal>
    requires { length_of region.now % mib ≡ 0 }
    ensures { outcome result ≡ items region.now }
{
    if !table::keeps_rules(region) {
        return Err(Refusal::MetadataEntry);
    }
    if !item::needed_are_there(region) {
        return Err(Refusal::ItemMissing);
    }
    Ok(contents(region))
}

fn contents(region: &[u8]) -> Items
    requires { (length_of region.now % mib ≡ 0) × (metadata_rule region.now ≡ true) × (needed_rule region.now ≡ true) }
    ensures { result ≡ contents_of region.now }
{
    let has_parent = item::has_parent(region);
    let parameters = item::bytes(region, known::FILE_PARAMETERS);
    Items {
        block_size: field::u32_at(parameters, 0) as u64,
        has_parent,
        disk_size: field::u64_at(item::bytes(region, known::DISK_SIZE), 0),
        logical_sector_size: field::u32_at(
            item::bytes(region, known::LOGICAL_SECTOR_SIZE),
            0,
        ) as u64,
        physical_sector_size: field::u32_at(
            item::bytes(region, known::PHYSICAL_SECTOR_SIZE),
            0,
        ) as u64,
        disk_id: field::guid_at(item::bytes(region, known::DISK_IDENTIFIER), 0),
        locator: item::extent(region, known::PARENT_LOCATOR),
    }
}
