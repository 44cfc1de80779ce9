// What a walker keeps to.
ghost use Rattle.std.specs.Prelude.{◌≡◌, ◌+◌, ◌<◌, nat_lt};
ghost use Rattle.vhdx_entry.specs.Entry.{descriptor_sectors};
ghost use Rattle.vhdx_pieces_walk.specs.Walking.{Opened};
ghost use Rattle.vhdx_pieces_sanity.specs.Sanity.{entered, wants, writes};

use crate::ring;
use vhdx_entry::descriptor;
use vhdx_pieces_walk::{Bounds, Held, Stage, Walker};

#[tactic(auto, unfolding(crate::specs::Sanity::wants))]
pub fn wants_sector(b: Bounds, w: Walker) -> bool
    ensures { result ≡ wants b w w.stage }
{
    match w.stage {
        Stage::Header => ring::is_standing(w.pos, w.left),
        Stage::Descriptors => is_entered(w) && w.index < w.count,
        Stage::Data(d) => {
            is_entered(w) && holds_data(w, d) && vhdx_pieces_walk::is_allowed(b, d.offset, 4096)
        }
        _ => false,
    }
}

#[tactic(auto, unfolding(crate::specs::Sanity::writes))]
pub fn writes_sector(b: Bounds, w: Walker) -> bool
    ensures { result ≡ writes b w w.stage }
{
    match w.stage {
        Stage::Sector(d) => { is_entered(w) && vhdx_pieces_walk::is_allowed(b, d.offset, 4096) }
        Stage::Zeros(e) => {
            is_entered(w) && 0 < e.length && vhdx_pieces_walk::is_allowed(b, e.offset, e.length)
        }
        _ => false,
    }
}

#[tactic(auto, unfolding(crate::specs::Sanity::entered))]
fn is_entered(w: Walker) -> bool
    ensures { result ≡ entered w }
{
    ring::is_standing(w.pos, w.left)
        && w.count < 4294967296
        && w.index <= w.count
        && w.data <= w.index
        && descriptor::sectors(w.count) <= w.size
        && w.size <= w.pos.len
}

fn holds_data(w: Walker, d: Held) -> bool
    requires { Opened w }
    ensures { result ≡ nat_lt (descriptor_sectors w.count + d.rank) w.size }
{
    d.rank < w.size && descriptor::sectors(w.count) + d.rank < w.size
}
