// The BAT entries of a sector, of facts that fit the image and a sector that the disk has.
ghost use Rattle.std.specs.Prelude.{true, ◌≡◌, ◌<◌, length};
ghost use Rattle.vhdx_facts.specs.Geometry.{needed_entries};
ghost use Rattle.vhdx_fit.specs.Fit.{facts_fit};
ghost use Rattle.vhdx_map.specs.Lookup.{bat_entry, payload_of, bitmap_of, sector_rule};

use crate::sector;
use vhdx_facts::Facts;

// Entry i.
fn at(facts: Facts, image: &[u8], i: u64) -> u64
    requires { (facts_fit (length image.now) facts ≡ true) × (i < needed_entries facts) }
    ensures { result ≡ bat_entry facts image.now i }
{
    field::u64_at(extent::part(image, facts.bat), 8 * i as usize)
}

// Of the sector's block.
pub fn payload_entry(facts: Facts, image: &[u8], sector: u64) -> u64
    requires { (facts_fit (length image.now) facts ≡ true) × (sector_rule facts sector ≡ true) }
    ensures { result ≡ payload_of facts image.now sector }
{
    at(facts, image, sector::payload_index(facts, sector))
}

// Of the bitmap of the block's chunk.
pub fn bitmap_entry(facts: Facts, image: &[u8], sector: u64) -> u64
    requires { (facts_fit (length image.now) facts ≡ true) × (sector_rule facts sector ≡ true) }
    ensures { result ≡ bitmap_of facts image.now sector }
{
    at(facts, image, sector::bitmap_index(facts, sector))
}
