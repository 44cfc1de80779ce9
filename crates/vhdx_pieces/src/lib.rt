// The log's work in pieces: a machine says which bytes of the file it wants, to which length the file is to grow, or that a sector is to
// be written. It is handed in again when they are there or it is done, and handed back moved.
#![tactic(auto)]

ghost use Rattle.std.specs.Prelude.{List, ◌≡◌, ℕ, ◌+◌, ◌≤◌, ◌<◌, length as length_of};
ghost use Rattle.vhdx_pieces_plan.specs.Planning.{sectors_of, OrderFor, Ordered, Kept as PlanKept};
ghost use Rattle.vhdx_pieces_walk.specs.declared.Step.TheVariants.{Write};
ghost use Rattle.vhdx_pieces_walk.specs.Walking.{Onward as WalkOnward};
ghost use Rattle.vhdx_pieces.specs.Machines.{Sane, Kept, bounds_of, wanted_of, growth_of, written_of, is_data_of, started, planned, ordered, walked, walk_from, step_of};

use decision::Refusal;
use extent::Extent;
use std::ops::ControlFlow;
use vhdx_entry::ring::RingPos;
use vhdx_pieces_plan::{Order, Planner};
use vhdx_pieces_walk::{Bounds, Walker};

// An order that is being done, with the number of its sectors that are not written yet.
#[derive(Clone, Copy)]
pub struct Doing {
    pub order: Order,
    pub walker: Walker,
    pub unwritten: u64,
}

#[derive(Clone, Copy)]
pub enum Machine {
    Planning(Planner),
    Growing(Order),
    Reading(Doing),
    Writing(Doing),
}

// The final length, and how many sectors were written.
#[derive(Clone, Copy)]
pub struct Finish {
    pub length: u64,
    pub count: u64,
}

// What is asked for. Whatever is asked of the machine that it hands out, that is to be done before it is handed in again.
#[derive(Clone, Copy)]
pub enum Turn {
    // bytes of the file are wanted
    Read(Machine),
    // the file is to grow
    Grow(Machine),
    // a sector is to be written
    Write(Machine),
    Done(Finish),
    Refused(Refusal),
}

// Of a file of this length, in this capacity.
pub fn start(length: u64, capacity: u64) -> Turn
    ensures { (result ≡ started length capacity) × Kept result }
{
    plan_turn(length, vhdx_pieces_plan::start(length, capacity))
}

// The bytes of the file that are wanted, none where something else is asked for.
pub fn wanted(m: Machine) -> Extent
    requires { Sane m }
    ensures { (result ≡ wanted_of m) × (result.length ≤ 65536) }
{
    match m {
        Machine::Planning(p) => vhdx_pieces_plan::wanted(p),
        Machine::Reading(d) => {
            vhdx_pieces_plan::sector_at(d.order.log, vhdx_pieces_walk::wanted(d.walker))
        }
        Machine::Growing(_) | Machine::Writing(_) => extent::nowhere(),
    }
}

// The length to which the file is to grow, 0 where something else is asked for.
pub fn growth(m: Machine) -> u64
    ensures { result ≡ growth_of m }
{
    match m {
        Machine::Growing(o) => o.length,
        _ => 0,
    }
}

// Where the sector to be written stands in the file, 0 where something else is asked for.
pub fn write_offset(m: Machine) -> u64
    ensures { (s : List ℕ) → result ≡ (written_of m s).offset }
{
    match m {
        Machine::Writing(d) => vhdx_pieces_sector::offset(d.walker),
        _ => 0,
    }
}

// That sector is a data descriptor's.
pub fn is_data(m: Machine) -> bool
    ensures { result ≡ is_data_of m }
{
    match m {
        Machine::Writing(d) => vhdx_pieces_sector::is_data(d.walker),
        _ => false,
    }
}

// Puts that sector's bytes in place of those that were read last.
pub fn fill(m: Machine, sector: &mut [u8; 4096])
    ensures { sector.new ≡ (written_of m sector.old).bytes }
{
    if let Machine::Writing(d) = m {
        vhdx_pieces_sector::fill(d.walker, sector);
    }
}

// Handed in, after what it asked for; the piece counts after a read only.
#[tactic(auto, unfolding(crate::specs::Machines::step_of))]
pub fn next(m: Machine, piece: &[u8]) -> Turn
    requires { Sane m × (length_of piece.now ≡ (wanted_of m).length) }
    ensures { (result ≡ step_of m piece.now) × Kept result }
{
    match m {
        Machine::Planning(p) => plan_turn(p.context.length, vhdx_pieces_plan::next(p, piece)),
        Machine::Growing(o) => walk_from(o),
        Machine::Reading(d) => {
            let o = d.order;
            let bounds = Bounds {
                log: o.log,
                limit: o.length,
            };
            let step = vhdx_pieces_walk::next(d.walker, bounds, field::array_at(piece, 0));
            walk_turn(o, d.unwritten, step)
        }
        Machine::Writing(d) => walk_turn(d.order, d.unwritten, vhdx_pieces_walk::wrote(d.walker)),
    }
}

fn plan_turn(length: u64, step: vhdx_pieces_plan::Step) -> Turn
    requires { PlanKept length step }
    ensures { (result ≡ planned length step) × Kept result }
{
    match step {
        ControlFlow::Continue(p) => Turn::Read(Machine::Planning(p)),
        ControlFlow::Break(outcome) => order_turn(length, outcome),
    }
}

// Growth comes first, only where the final length is greater.
fn order_turn(length: u64, outcome: Result<Order, Refusal>) -> Turn
    requires { Ordered length outcome }
    ensures { (result ≡ ordered length outcome) × Kept result }
{
    match outcome {
        Err(refusal) => Turn::Refused(refusal),
        Ok(o) => {
            if length < o.length {
                Turn::Grow(Machine::Growing(o))
            } else {
                walk_from(o)
            }
        }
    }
}

#[tactic(auto, unfolding(crate::specs::Machines::walk_from))]
fn walk_from(o: Order) -> Turn
    requires { OrderFor o.length o }
    ensures { (result ≡ walk_from o) × Kept result }
{
    let pos = RingPos {
        at: o.start,
        len: vhdx_pieces_plan::sectors(o.log),
    };
    walk_turn(o, o.count, vhdx_pieces_walk::start(pos, o.left))
}

// Where so many planned sectors are not written yet. A log that reads otherwise than when it was surveyed asks for more or fewer.
fn walk_turn(o: Order, unwritten: u64, step: vhdx_pieces_walk::Step) -> Turn
    requires { OrderFor o.length o × WalkOnward (bounds_of o) (sectors_of o.log) step }
    ensures { (result ≡ walked o unwritten step) × Kept result }
{
    match step {
        vhdx_pieces_walk::Step::Read(walker) => Turn::Read(Machine::Reading(Doing {
            order: o,
            walker,
            unwritten,
        })),
        vhdx_pieces_walk::Step::Write(walker) => write_turn(o, unwritten, walker),
        vhdx_pieces_walk::Step::Ended => {
            if unwritten == 0 {
                Turn::Done(Finish {
                    length: o.length,
                    count: o.count,
                })
            } else {
                Turn::Refused(Refusal::NoLogSequence)
            }
        }
        vhdx_pieces_walk::Step::Broken => Turn::Refused(Refusal::NoLogSequence),
    }
}

fn write_turn(o: Order, unwritten: u64, walker: Walker) -> Turn
    requires { OrderFor o.length o × WalkOnward (bounds_of o) (sectors_of o.log) (Write walker) }
    ensures { (result ≡ walked o unwritten (Write walker)) × Kept result }
{
    if 0 < unwritten {
        Turn::Write(Machine::Writing(Doing {
            order: o,
            walker,
            unwritten: unwritten - 1,
        }))
    } else {
        Turn::Refused(Refusal::NoLogSequence)
    }
}
