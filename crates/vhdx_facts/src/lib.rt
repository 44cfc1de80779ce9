// The facts of a disk, the ranges of its sizes, and the layout of its block allocation table.
// Its modules: `ranges`, which sizes a disk may have; `geometry`, how many blocks, chunks and entries there are, and where.
#![tactic(auto)]

pub mod geometry;
pub mod ranges;

ghost use Rattle.std.specs.Prelude.{◌≡◌};
ghost use Rattle.vhdx_facts.specs.Ranges.{no_facts};

use extent::Extent;
use field::Guid;

// What attaching a file answers of it. A caller may hand back any numbers as facts, so all have 64 bits.
#[derive(Clone, Copy, Debug, PartialEq, Eq, Drop)]
pub struct Facts {
    pub logical_sector_size: u64,
    pub physical_sector_size: u64,
    pub block_size: u64,
    pub disk_size: u64,
    pub has_parent: bool,
    // the 16 stored bytes
    pub disk_id: Guid,
    // offsets from the image's start
    pub bat: Extent,
    pub metadata: Extent,
    pub locator: Extent,
}

// What is answered with a refusal.
pub fn none() -> Facts
    ensures { result ≡ no_facts }
{
    Facts {
        logical_sector_size: 0,
        physical_sector_size: 0,
        block_size: 0,
        disk_size: 0,
        has_parent: false,
        disk_id: Guid::ZERO,
        bat: extent::nowhere(),
        metadata: extent::nowhere(),
        locator: extent::nowhere(),
    }
}
