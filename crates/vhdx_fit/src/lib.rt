// Whether facts that a caller hands in fit the image that comes with them: document 01's refusal 16.
#![tactic(auto)]

ghost use Rattle.std.specs.Prelude.{◌≡◌, ◌≤◌};
ghost use Rattle.vhdx_fit.specs.Fit.{regions_fit, locator_item, locator_fits, parent_fits, facts_fit, fits as fits_rule};

use extent::Extent;
use vhdx_facts::{Facts, geometry, ranges};

// With an image of this length in a buffer of this capacity.
#[tactic(auto, unfolding(crate::specs::Fit::fits))]
pub fn fits(facts: Facts, capacity: u64, length: u64) -> bool
    ensures { result ≡ fits_rule capacity length facts }
{
    length <= capacity && facts_fit(facts, length)
}

// The sizes come first: nothing is divided before they are in their ranges.
#[tactic(auto, unfolding(crate::specs::Fit::facts_fit))]
fn facts_fit(facts: Facts, length: u64) -> bool
    ensures { result ≡ facts_fit length facts }
{
    ranges::sizes_keep_rules(facts)
        && regions_fit(facts, length)
        && geometry::bat_keeps_rule(facts)
        && parent_fits(facts)
}

#[tactic(auto, unfolding(crate::specs::Fit::regions_fit))]
fn regions_fit(facts: Facts, length: u64) -> bool
    ensures { result ≡ regions_fit length facts }
{
    vhdx_region::location::keeps_rule(facts.bat, length)
        && vhdx_region::location::keeps_rule(facts.metadata, length)
        && extent::are_apart(facts.bat, facts.metadata)
        && 0 < facts.metadata.length
}

fn parent_fits(facts: Facts) -> bool
    ensures { result ≡ parent_fits facts }
{
    !facts.has_parent || locator_fits(facts)
}

// Where the locator lies; its bytes are not read.
#[tactic(auto, unfolding(crate::specs::Fit::locator_fits))]
fn locator_fits(facts: Facts) -> bool
    ensures { result ≡ locator_fits facts }
{
    facts.metadata.offset <= facts.locator.offset
        && vhdx_metadata::location::keeps_rule(locator_item(facts), facts.metadata.length)
        && 20 <= facts.locator.length
}

// The locator as an item of its region, which it does not start before.
fn locator_item(facts: Facts) -> Extent
    requires { facts.metadata.offset ≤ facts.locator.offset }
    ensures { result ≡ locator_item facts }
{
    Extent {
        offset: facts.locator.offset - facts.metadata.offset,
        ..facts.locator
    }
}
