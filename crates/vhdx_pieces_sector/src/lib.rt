// The sector that a walker has to write: where it stands in the file, the kind of its descriptor, and its bytes.
#![tactic(auto)]

ghost use Rattle.std.specs.Prelude.{List, ◌≡◌, ℕ};
ghost use Rattle.vhdx_pieces_walk.specs.Walking.{written_of, data_sector};
ghost use Rattle.vhdx_pieces_sector.specs.Written.{is_data_of};

use vhdx_pieces_walk::{Held, Stage, Walker};
use vhdx_replay::store;

// Where in the file it stands, 0 where none is to be written.
pub fn offset(w: Walker) -> u64
    ensures { (p : List ℕ) → result ≡ (written_of w p).offset }
{
    match w.stage {
        Stage::Sector(held) => held.offset,
        Stage::Zeros(span) => span.offset,
        Stage::Header | Stage::Descriptors | Stage::Data(_) => 0,
    }
}

// It is a data descriptor's.
pub fn is_data(w: Walker) -> bool
    ensures { result ≡ is_data_of w }
{
    matches!(w.stage, Stage::Sector(_))
}

// Puts its bytes in place of the sector that was read last.
#[tactic(auto, using(crate::proofs::Filled::zeros_filled))]
pub fn fill(w: Walker, sector: &mut [u8; 4096])
    ensures { sector.new ≡ (written_of w sector.old).bytes }
{
    match w.stage {
        Stage::Sector(held) => complete(held, sector),
        Stage::Zeros(_) => store::zeros(sector, 0, 4096),
        Stage::Header | Stage::Descriptors | Stage::Data(_) => {}
    }
}

// A data sector with the bytes at its two ends that its descriptor holds.
#[tactic(auto, using(crate::proofs::Filled::completed))]
fn complete(held: Held, sector: &mut [u8; 4096])
    ensures { sector.new ≡ data_sector held sector.old }
{
    store::bytes(sector, 0, &held.leading.to_le_bytes());
    store::bytes(sector, 4092, &held.trailing.to_le_bytes());
}
