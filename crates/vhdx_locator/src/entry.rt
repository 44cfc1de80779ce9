// Entry i of a locator: the offset and the length of its key and of its value.
ghost use Rattle.std.specs.Prelude.{true, ◌≡◌, ◌+◌, ◌≤◌, drop, length, Some};
ghost use Rattle.field.specs.Fields.{starts};
ghost use Rattle.vhdx_locator.specs.Locator.{entry_start, key_offset, key_length, part_rule, entry_rule, has_key, value_at};

use extent::Extent;

// A key or a value lies inside the item and is not empty.
fn part_keeps_rule(item: &[u8], part: Extent) -> bool
    ensures { result ≡ part_rule item.now part.offset part.length }
{
    0 < part.length && extent::is_inside(part.offset, part.length, item.len() as u64)
}

fn key(item: &[u8], i: usize) -> Extent
    requires { entry_start (i + 1) ≤ length item.now }
    ensures { result ≡ record { offset = key_offset item.now i; length = key_length item.now i } }
{
    let at = 20 + 12 * i;
    Extent {
        offset: field::u32_at(item, at) as u64,
        length: field::u16_at(item, at + 8) as u64,
    }
}

pub fn value(item: &[u8], i: usize) -> Extent
    requires { entry_start (i + 1) ≤ length item.now }
    ensures { result ≡ value_at item.now (Some i) }
{
    let at = 20 + 12 * i;
    Extent {
        offset: field::u32_at(item, at + 4) as u64,
        length: field::u16_at(item, at + 10) as u64,
    }
}

#[tactic(auto, unfolding(crate::specs::Locator::entry_rule))]
pub fn keeps_rule(item: &[u8], i: usize) -> bool
    requires { entry_start (i + 1) ≤ length item.now }
    ensures { result ≡ entry_rule item.now i }
{
    part_keeps_rule(item, key(item, i)) && part_keeps_rule(item, value(item, i))
}

// Some first bytes agree, compared as one number: most keys differ there, and `bytes_are` compares many at once.
#[tactic(auto, using(crate::proofs::Begins::same_number))]
fn begins_alike(item: &[u8], at: usize, key_bytes: &[u8]) -> bool
    requires { at + length key_bytes.now ≤ length item.now }
    ensures { starts (drop at item.now) key_bytes.now ≡ true → result ≡ true }
{
    match key_bytes.len() {
        0 => true,
        1 => field::u8_at(item, at) == field::u8_at(key_bytes, 0),
        2 | 3 => field::u16_at(item, at) == field::u16_at(key_bytes, 0),
        4..=7 => field::u32_at(item, at) == field::u32_at(key_bytes, 0),
        _ => field::u64_at(item, at) == field::u64_at(key_bytes, 0),
    }
}

// The bytes at an offset are the key.
fn is_at(item: &[u8], at: usize, key_bytes: &[u8]) -> bool
    requires { at + length key_bytes.now ≤ length item.now }
    ensures { result ≡ starts (drop at item.now) key_bytes.now }
{
    begins_alike(item, at, key_bytes) && field::bytes_are(item, at, key_bytes)
}

// The entry has the key, byte for byte.
#[tactic(auto, unfolding(crate::specs::Locator::has_key))]
pub fn has_key(item: &[u8], i: usize, key_bytes: &[u8]) -> bool
    requires { (entry_start (i + 1) ≤ length item.now) × (entry_rule item.now i ≡ true) }
    ensures { result ≡ has_key item.now key_bytes.now i }
{
    let own = key(item, i);
    own.length == key_bytes.len() as u64 && is_at(item, own.offset as usize, key_bytes)
}
