// Where a region may lie.
ghost use Rattle.std.specs.Prelude.{◌≡◌};
ghost use Rattle.vhdx_region.specs.Region.{location_rule};

use extent::Extent;

// In an image of this length.
#[tactic(auto, unfolding(crate::specs::Region::location_rule))]
pub fn keeps_rule(region: Extent, length: u64) -> bool
    ensures { result ≡ location_rule length region }
{
    extent::is_whole_mib(region.offset)
        && extent::MIB <= region.offset
        && extent::is_whole_mib(region.length)
        && extent::is_in_bounds(region, length)
}
