// The parent locator, given as its item's bytes: its rule, and where the value of a key lies.
// Its module `entry`: one entry by its number.
#![tactic(auto)]

mod entry;

ghost use Rattle.std.specs.Prelude.{true, ◌≡◌, ◌≤◌, ◌&&◌, length};
ghost use Rattle.decision.specs.Bounded.{every};
ghost use Rattle.vhdx_locator.specs.Locator.{vhdx_type, entry_count, entry_start, type_rule, entries_rule, entry_rule, locator_rule, entry_of, value_of};

use extent::Extent;

// b04aefb7-d19e-4a81-b789-25b8e9445913, as it is stored
const VHDX: [u8; 16] = *b"\xb7\xef\x4a\xb0\x9e\xd1\x81\x4a\xb7\x89\x25\xb8\xe9\x44\x59\x13";

// The type that is understood here.
fn vhdx() -> [u8; 16]
    ensures { result ≡ vhdx_type }
{
    VHDX
}

fn is_vhdx(item: &[u8]) -> bool
    requires { 20 ≤ length item.now }
    ensures { result ≡ type_rule item.now }
{
    let kind = vhdx();
    field::guid_is(item, 0, field::guid_at(&kind, 0))
}

fn count(item: &[u8]) -> u16
    requires { 20 ≤ length item.now }
    ensures { result ≡ entry_count item.now }
{
    field::u16_at(item, 18)
}

// The entries lie inside the item, and every one keeps its rule.
fn entries_keep_rule(item: &[u8]) -> bool
    requires { 20 ≤ length item.now }
    ensures { result ≡ (entries_rule item.now && every (entry_count item.now) (λ i. entry_rule item.now i)) }
{
    let count = count(item) as usize;
    20 + 12 * count <= item.len() && (0..count).all(|i| entry::keeps_rule(item, i))
}

// The locator keeps its rule.
#[tactic(auto, unfolding(crate::specs::Locator::locator_rule))]
pub fn keeps_rule(item: &[u8]) -> bool
    ensures { result ≡ locator_rule item.now }
{
    20 <= item.len() && is_vhdx(item) && entries_keep_rule(item)
}

// The first entry with the key, of a locator that keeps its rule.
fn entry_of(item: &[u8], key: &[u8]) -> Option<usize>
    requires { locator_rule item.now ≡ true }
    ensures { result ≡ entry_of item.now key.now }
{
    (0..count(item) as usize).find(|i| entry::has_key(item, *i, key))
}

// Where the value of a key lies in the item; of length 0 where the locator breaks its rule or no entry has the key.
pub fn value(item: &[u8], key: &[u8]) -> Extent
    ensures { result ≡ value_of item.now key.now }
{
    if !keeps_rule(item) {
        return extent::nowhere();
    }
    entry_of(item, key).map_or(extent::nowhere(), |i| entry::value(item, i))
}
