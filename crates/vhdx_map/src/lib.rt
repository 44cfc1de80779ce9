// From a sector of a disk to where its bytes are: document 01's lookup, refusals 16 to 20. The facts are any numbers. One BAT
// entry is read and, of a partially present block, one bitmap entry and one byte of the bitmap.
// Its modules: `sector`, where a sector stands; `bat`, its BAT entries; `entry`, what one says.
#![tactic(auto)]

mod bat;
mod entry;
mod sector;

ghost use Rattle.std.specs.Prelude.{true, ◌≡◌, ◌+◌, ◌<◌, ◌^◌, length as length_of};
ghost use Rattle.decision.specs.Refusal.{outcome};
ghost use Rattle.bitmap.specs.Bitmap.{bit_of, lowest_first};
ghost use Rattle.vhdx_facts.specs.Ranges.{sizes_rule};
ghost use Rattle.vhdx_fit.specs.Fit.{facts_fit};
ghost use Rattle.vhdx_map.specs.Entry.{offset_of, bitmap_rule};
ghost use Rattle.vhdx_map.specs.Lookup.{into_block, bit_number, bitmap_byte, sector_rule, full, partial_in, in_image_at, lookup as lookup_of};

use decision::Refusal;
use entry::Meaning;
use extent::Extent;
use vhdx_facts::{Facts, geometry};

// Where a sector's bytes are.
#[derive(Clone, Copy, Debug, PartialEq, Eq, Drop)]
pub enum Place {
    // in the file, from this offset on
    File(u64),
    // they are all zero
    Zero,
    // in the parent
    Parent,
}

// Of sector number `sector` of the image that is the buffer's first `length` bytes.
pub fn lookup(facts: Facts, buffer: &[u8], length: u64, sector: u64) -> Result<Place, Refusal>
    ensures { outcome result ≡ lookup_of facts buffer.now length sector }
{
    if !vhdx_fit::fits(facts, buffer.len() as u64, length) {
        return Err(Refusal::FactsDoNotFit);
    }
    if geometry::sectors(facts) <= sector {
        return Err(Refusal::NoSuchSector);
    }
    let end = length as usize;
    in_image(facts, &buffer[..end], sector)
}

// 18 to 20.
#[tactic(auto, unfolding(crate::specs::Lookup::in_image_at, crate::specs::Lookup::located, crate::specs::Lookup::partial_in))]
fn in_image(facts: Facts, image: &[u8], sector: u64) -> Result<Place, Refusal>
    requires { (facts_fit (length_of image.now) facts ≡ true) × (sector_rule facts sector ≡ true) }
    ensures { outcome result ≡ in_image_at facts image.now sector }
{
    let e = bat::payload_entry(facts, image, sector);
    match entry::meaning_of(e, facts.has_parent) {
        Meaning::ReadsZero => Ok(Place::Zero),
        Meaning::ReadsParent => Ok(Place::Parent),
        Meaning::Invalid => Err(Refusal::BlockState),
        Meaning::FullyPresent => stored_block(facts, image.len() as u64, sector, e),
        Meaning::PartiallyPresent => partially_present(facts, image, sector, e),
    }
}

// 19, of a block with entry e, in an image of this length.
fn stored_block(facts: Facts, length: u64, sector: u64, e: u64) -> Result<Place, Refusal>
    requires { (sizes_rule facts ≡ true) × (sector_rule facts sector ≡ true) }
    ensures { outcome result ≡ full length facts sector e }
{
    if !entry::is_stored(e, facts.block_size, length) {
        return Err(Refusal::BlockOutside);
    }
    Ok(Place::File(offset(facts, sector, e)))
}

// 19 and 20, of a partially present block with entry e. The bitmap is not looked for before the block is found in the image.
#[tactic(auto, unfolding(crate::specs::Lookup::partial_in))]
fn partially_present(facts: Facts, image: &[u8], sector: u64, e: u64) -> Result<Place, Refusal>
    requires { (facts_fit (length_of image.now) facts ≡ true) × (sector_rule facts sector ≡ true) }
    ensures { outcome result ≡ partial_in facts image.now sector e }
{
    let length = image.len() as u64;
    let place = stored_block(facts, length, sector, e)?;
    let b = bat::bitmap_entry(facts, image, sector);
    if !entry::is_bitmap(b, length) {
        return Err(Refusal::BitmapOutside);
    }
    if bit(image, sector, b) {
        Ok(place)
    } else {
        Ok(Place::Parent)
    }
}

// The sector's bit in the bitmap of entry b.
fn bit(image: &[u8], sector: u64, b: u64) -> bool
    requires { bitmap_rule (length_of image.now) b ≡ true }
    ensures { result ≡ bit_of (bitmap_byte image.now b sector) (lowest_first (bit_number sector)) }
{
    let bitmap = Extent {
        offset: entry::offset(b),
        length: extent::MIB,
    };
    bitmap::bit(
        extent::part(image, bitmap),
        (sector % geometry::SECTORS_IN_CHUNK) as usize,
    )
}

// The sector's offset in the file, in the block that entry e stores.
fn offset(facts: Facts, sector: u64, e: u64) -> u64
    requires { (sizes_rule facts ≡ true) × (sector_rule facts sector ≡ true) × (offset_of e + facts.block_size < 2 ^ 64) }
    ensures { result ≡ offset_of e + into_block facts sector }
{
    entry::offset(e) + sector::into_block(facts, sector)
}
