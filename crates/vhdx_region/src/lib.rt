// The regions of a VHDX file, found in its region table, or the refusal: document 01's 9 to 11.
// Its modules: `known`, the identifiers; `location`, where a region may lie; `entry`, one entry; `table`, one copy of the table.
#![tactic(auto)]

mod entry;
mod known;
pub mod location;
mod table;

ghost use Rattle.std.specs.Prelude.{true, ◌≡◌, ◌+◌, ◌≤◌, length as length_of};
ghost use Rattle.decision.specs.Refusal.{outcome};
ghost use Rattle.extent.specs.Extent.{mib};
ghost use Rattle.vhdx_region.specs.Region.{table_at, valid_table, read_table, regions};

use decision::Refusal;
use extent::Extent;

#[derive(Clone, Copy, Debug, PartialEq, Eq, Drop)]
pub struct Regions {
    pub bat: Extent,
    pub metadata: Extent,
}

// Where the two copies stand.
const COPY1: usize = 196608;

const COPY2: usize = 262144;

// Of an image whose log is here.
#[tactic(auto, unfolding(crate::specs::Region::regions))]
pub fn read(image: &[u8], log: Extent) -> Result<Regions, Refusal>
    requires { mib ≤ length_of image.now }
    ensures { outcome result ≡ regions image.now log }
{
    let length = image.len() as u64;
    let first = table_at(image, COPY1);
    if table::is_valid(first) {
        return read_table(first, length, log);
    }
    let second = table_at(image, COPY2);
    if !table::is_valid(second) {
        return Err(Refusal::NoRegionTable);
    }
    read_table(second, length, log)
}

fn table_at(image: &[u8], at: usize) -> &[u8; 65536]
    requires { at + 65536 ≤ length_of image.now }
    ensures { result.now ≡ table_at image.now at }
{
    field::array_at(image, at)
}

// Of a valid copy of the table, in an image of this length.
#[tactic(auto, using(crate::proofs::Entries::found_below), unfolding(crate::specs::Region::read_table))]
fn read_table(t: &[u8; 65536], length: u64, log: Extent) -> Result<Regions, Refusal>
    requires { valid_table t.now ≡ true }
    ensures { outcome result ≡ read_table length log t.now }
{
    if !table::keeps_rules(t, length, log) {
        return Err(Refusal::RegionEntry);
    }
    let bat = table::find(t, known::BAT).ok_or(Refusal::RegionMissing)?;
    let metadata = table::find(t, known::METADATA).ok_or(Refusal::RegionMissing)?;
    Ok(Regions {
        bat: entry::extent(table::entry(t, bat)),
        metadata: entry::extent(table::entry(t, metadata)),
    })
}
