// The value of a key of the parent locator: document 01's parent key. The facts are any numbers, the key any bytes.
#![tactic(auto)]

ghost use Rattle.std.specs.Prelude.{◌≡◌, ◌+◌, ◌≤◌, ◌<◌, ◌^◌, length as length_of};
ghost use Rattle.extent.specs.Extent.{part as part_of, onward};
ghost use Rattle.vhdx_parent.specs.Key.{within, in_locator, key_extent};

use extent::Extent;
use vhdx_facts::Facts;

// The value as the very part of the caller's buffer, which starts at the value's offset; the empty beginning of the buffer where
// there is none. The image is the buffer's first `length` bytes.
pub fn value<'a>(facts: Facts, buffer: &'a [u8], length: u64, key: &[u8]) -> &'a [u8]
    ensures bytes { result.now ≡ part_of buffer.now (key_extent facts buffer.now length key.now) }
    ensures len { length_of result.now ≡ (key_extent facts buffer.now length key.now).length }
    ensures place { result.ref_ptr ≡ onward buffer.entry.ref_ptr (key_extent facts buffer.now length key.now).offset }
{
    extent::part(buffer, value_extent(facts, buffer, length, key))
}

// The same answer as offset and length, 0 and 0 where there is no value.
#[tactic(auto, unfolding(crate::specs::Key::key_extent))]
pub fn value_extent(facts: Facts, buffer: &[u8], length: u64, key: &[u8]) -> Extent
    ensures { result ≡ key_extent facts buffer.now length key.now }
{
    if vhdx_fit::fits(facts, buffer.len() as u64, length) && facts.has_parent {
        in_locator(facts, &buffer[..length as usize], key)
    } else {
        extent::nowhere()
    }
}

// Of an image that holds the locator.
fn in_locator(facts: Facts, image: &[u8], key: &[u8]) -> Extent
    requires { facts.locator.offset + facts.locator.length ≤ length_of image.now }
    ensures { result ≡ in_locator facts image.now key.now }
{
    let item = extent::part(image, facts.locator);
    from_start(facts.locator.offset, vhdx_locator::value(item, key))
}

// A part of what starts at an offset, told from the image's start.
fn from_start(offset: u64, e: Extent) -> Extent
    requires { offset + e.offset < 2 ^ 64 }
    ensures { result ≡ within offset e }
{
    if 0 < e.length {
        extent::shifted(offset, e)
    } else {
        extent::nowhere()
    }
}
