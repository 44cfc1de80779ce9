// The facts of a VHDX file whose log is applied, read from its tables, or the refusal: document 01's 9 to 15.
#![tactic(auto)]

ghost use Rattle.std.specs.Prelude.{◌&&◌, ◌≡◌, ◌+◌, ◌≤◌, ◌<◌, ◌^◌, length as length_of};
ghost use Rattle.decision.specs.Refusal.{outcome};
ghost use Rattle.extent.specs.Extent.{mib};
ghost use Rattle.vhdx_facts.specs.Ranges.{sizes_rule};
ghost use Rattle.vhdx_tables.specs.Tables.{locator_extent, facts_of, parent_rule, judged, tables};

use decision::Refusal;
use extent::Extent;
use vhdx_facts::{Facts, geometry, ranges};
use vhdx_metadata::Items;
use vhdx_region::Regions;

// Of an image whose log is here.
pub fn read(image: &[u8], log: Extent) -> Result<Facts, Refusal>
    requires { mib ≤ length_of image.now }
    ensures { outcome result ≡ tables image.now log }
{
    let regions = vhdx_region::read(image, log)?;
    let items = vhdx_metadata::read(extent::part(image, regions.metadata))?;
    judge(image, facts(regions, items))
}

// What the regions and the items say.
#[tactic(auto, unfolding(crate::specs::Tables::facts_of))]
fn facts(regions: Regions, items: Items) -> Facts
    requires { regions.metadata.offset + items.locator.offset < 2 ^ 64 }
    ensures { result ≡ facts_of regions items }
{
    Facts {
        logical_sector_size: items.logical_sector_size,
        physical_sector_size: items.physical_sector_size,
        block_size: items.block_size,
        disk_size: items.disk_size,
        has_parent: items.has_parent,
        disk_id: items.disk_id,
        bat: regions.bat,
        metadata: regions.metadata,
        locator: locator_extent(items.has_parent, regions.metadata, items.locator),
    }
}

// Where the locator, an item of the region, lies in the image.
fn locator_extent(has_parent: bool, region: Extent, item: Extent) -> Extent
    requires { region.offset + item.offset < 2 ^ 64 }
    ensures { result ≡ locator_extent has_parent region item }
{
    if has_parent {
        extent::shifted(region.offset, item)
    } else {
        extent::nowhere()
    }
}

// 14 and 15.
#[tactic(auto, unfolding(crate::specs::Tables::judged))]
fn judge(image: &[u8], facts: Facts) -> Result<Facts, Refusal>
    requires { facts.locator.offset + facts.locator.length ≤ length_of image.now }
    ensures { outcome result ≡ judged image.now facts }
{
    if !values_keep_rules(image, facts) {
        return Err(Refusal::ItemValue);
    }
    if !geometry::bat_keeps_rule(facts) {
        return Err(Refusal::BatTooShort);
    }
    Ok(facts)
}

// The sizes are in their ranges and the locator, where there is a parent, keeps its rule.
#[tactic(auto, unfolding(crate::specs::Tables::parent_rule))]
fn values_keep_rules(image: &[u8], facts: Facts) -> bool
    requires { facts.locator.offset + facts.locator.length ≤ length_of image.now }
    ensures { result ≡ (sizes_rule facts && parent_rule image.now facts) }
{
    ranges::sizes_keep_rules(facts)
        && (!facts.has_parent || vhdx_locator::keeps_rule(extent::part(image, facts.locator)))
}
