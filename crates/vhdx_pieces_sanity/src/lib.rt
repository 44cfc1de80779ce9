// What a machine keeps to, tested: of a machine that came from outside nothing is known.
// Its modules: `ring`, `planner`, `walker`, the parts of a machine.
#![tactic(auto)]

mod planner;
mod ring;
mod walker;

ghost use Rattle.std.specs.Prelude.{◌≡◌, nat_eq};
ghost use Rattle.vhdx_pieces.specs.Machines.{bounds_of};
ghost use Rattle.vhdx_pieces_plan.specs.Planning.{sectors_of};
ghost use Rattle.vhdx_pieces_sanity.specs.Sanity.{orderly, sane};

use vhdx_log::decide;
use vhdx_pieces::{Doing, Machine};
use vhdx_pieces_plan::Order;
use vhdx_pieces_walk::Bounds;

#[tactic(auto, unfolding(crate::specs::Sanity::sane))]
pub fn is_sane(m: Machine) -> bool
    ensures { result ≡ sane m }
{
    match m {
        Machine::Planning(p) => planner::is_sane(p),
        Machine::Growing(o) => is_orderly(o),
        Machine::Reading(d) => {
            is_orderly(d.order) && walker::wants_sector(bounds(d.order), d.walker) && is_on_log(d)
        }
        Machine::Writing(d) => {
            is_orderly(d.order) && walker::writes_sector(bounds(d.order), d.walker) && is_on_log(d)
        }
    }
}

#[tactic(auto, unfolding(crate::specs::Sanity::orderly))]
fn is_orderly(o: Order) -> bool
    ensures { result ≡ orderly o }
{
    let n = vhdx_pieces_plan::sectors(o.log);
    decide::is_within(o.length, o.length)
        && o.log.length < 4294967296
        && extent::is_in_bounds(o.log, o.length)
        && o.left <= n as u64
        && (o.left == 0 || o.start < n)
}

fn bounds(o: Order) -> Bounds
    ensures { result ≡ bounds_of o }
{
    Bounds {
        log: o.log,
        limit: o.length,
    }
}

// The walker is on the log's ring.
fn is_on_log(d: Doing) -> bool
    ensures { result ≡ nat_eq d.walker.pos.len (sectors_of d.order.log) }
{
    d.walker.pos.len == vhdx_pieces_plan::sectors(d.order.log)
}
