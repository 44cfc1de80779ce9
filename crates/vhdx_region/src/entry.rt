// One entry of a region table, given as its 32 bytes.
ghost use Rattle.std.specs.Prelude.{◌≡◌};
ghost use Rattle.vhdx_region.specs.Region.{extent_of, required_rule, own_rule, pair_rule};

use crate::{known, location};
use extent::Extent;

pub fn extent(e: &[u8; 32]) -> Extent
    ensures { result ≡ extent_of e.now }
{
    Extent {
        offset: field::u64_at(e, 16),
        length: field::u32_at(e, 24) as u64,
    }
}

// Required is 1 only where the region is known.
#[tactic(auto, using(crate::proofs::Entries::identified))]
fn required_keeps_rule(e: &[u8; 32]) -> bool
    ensures { result ≡ required_rule e.now }
{
    guid::row(known::regions(), field::guid_at(e, 0)).is_some() || field::u32_at(e, 28) != 1
}

// The rules that the entry keeps by itself, in an image of this length whose log is here.
#[tactic(auto, unfolding(crate::specs::Region::own_rule))]
pub fn keeps_rule(e: &[u8; 32], length: u64, log: Extent) -> bool
    ensures { result ≡ own_rule length log e.now }
{
    let region = extent(e);
    location::keeps_rule(region, length) && extent::are_apart(region, log) && required_keeps_rule(e)
}

// Two entries have neither the identifier nor a byte in common.
#[tactic(auto, using(crate::proofs::Entries::identified), unfolding(crate::specs::Region::pair_rule))]
pub fn are_apart(earlier: &[u8; 32], e: &[u8; 32]) -> bool
    ensures { result ≡ pair_rule earlier.now e.now }
{
    !field::guid_is(earlier, 0, field::guid_at(e, 0))
        && extent::are_apart(extent(earlier), extent(e))
}
