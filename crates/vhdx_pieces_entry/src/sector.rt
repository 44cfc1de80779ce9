// The descriptors that stand in one sector of an entry, given as that sector alone.
ghost use Rattle.std.specs.Prelude.{◌≡◌, ◌+◌, ◌*◌, ◌≤◌};
ghost use Rattle.decision.specs.Bounded.{only_if};
ghost use Rattle.vhdx_pieces_entry.specs.Sector.{passes, data_in, length_in};

use vhdx_entry::{body, descriptor};

// Of the m descriptors from byte `from` of a sector on: how many are data descriptors, if all keep their rule.
pub fn descriptors(s: &[u8; 4096], from: usize, m: usize, number: u64) -> Option<usize>
    requires { from + 32 * m ≤ 4096 }
    ensures { result ≡ only_if (passes number s.now from m) (data_in s.now from m) }
{
    let mut found: usize = 0;
    for i in 0..m {
        let d = field::array_at(s, from + 32 * i);
        if !descriptor::keeps_rule(d, number) {
            return None;
        }
        found = body::counted(d, found);
    }
    Some(found)
}

// How many bytes a descriptor names.
pub fn run_length(d: &[u8; 32]) -> u64
    ensures { result ≡ length_in d.now }
{
    if descriptor::is_data(d) {
        4096
    } else {
        descriptor::zero_length(d)
    }
}
