// A machine of the log's work in pieces as 64 numbers, as programs in other languages hold it between two calls.
// Its modules: `writing`, the parts of a machine into their slots; `reading`, out of them.
#![tactic(auto)]

mod reading;
mod writing;

ghost use Rattle.std.specs.Prelude.{◌≡◌};
ghost use Rattle.vhdx_pieces_slots.specs.Slots.{zeros, numbers};
ghost use Rattle.vhdx_pieces_slots.specs.Loading.{loaded, Sound};

use vhdx_pieces::Machine;

// No machine.
#[tactic(auto, unfolding(crate::specs::Slots::zeros))]
pub fn clear(slots: &mut [u64; 64])
    ensures { slots.new ≡ zeros }
{
    *slots = [0; 64];
}

#[tactic(auto, unfolding(crate::specs::Slots::numbers, vhdx_slots::specs::Slots::in_slots))]
pub fn save(m: Machine, slots: &mut [u64; 64])
    ensures { slots.new ≡ numbers m }
{
    clear(slots);
    match m {
        Machine::Planning(p) => {
            slots[0] = 1;
            writing::planner(p, slots);
        }
        Machine::Growing(o) => {
            slots[0] = 2;
            writing::order(o, slots);
        }
        Machine::Reading(d) => {
            slots[0] = 3;
            writing::doing(d, slots);
        }
        Machine::Writing(d) => {
            slots[0] = 4;
            writing::doing(d, slots);
        }
    }
}

// The machine whose numbers these are. Read, tested, and written again: what is written must be what was read.
pub fn load(slots: &[u64; 64]) -> Option<Machine>
    ensures value { result ≡ loaded slots.now }
    ensures sound { Sound result }
{
    let m = reading::machine(slots);
    let mut again = [0; 64];
    save(m, &mut again);
    (vhdx_pieces_sanity::is_sane(m) && again == *slots).then_some(m)
}
