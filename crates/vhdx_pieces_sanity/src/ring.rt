// What a tour over entries and a walker have in common.
ghost use Rattle.std.specs.Prelude.{◌≡◌};
ghost use Rattle.vhdx_pieces_sanity.specs.Sanity.{standing};

use vhdx_entry::ring::RingPos;

pub fn is_standing(pos: RingPos, left: u64) -> bool
    ensures { result ≡ standing pos left }
{
    pos.at < pos.len && pos.len < 1048576 && 0 < left && left <= pos.len as u64
}
