// The parts of a machine into their slots.
ghost use Rattle.std.specs.Prelude.{◌≡◌};
ghost use Rattle.vhdx_pieces_slots.specs.Slots.{context_in, header_in, best_in, stage_in, scanner_in, tour_in, surveying_in, phase_in, planner_in, order_in, held_in, turn_in, walker_in, doing_in};

use vhdx_pieces::Doing;
use vhdx_pieces_plan::{Context, Order, Phase, Planner, Surveying};
use vhdx_pieces_scan::Scanner;
use vhdx_pieces_survey::Tour;
use vhdx_pieces_walk::{Held, Walker};
use vhdx_sequence::Sequence;

#[tactic(auto, unfolding(crate::specs::Slots::planner_in))]
pub fn planner(p: Planner, slots: &mut [u64; 64])
    ensures { slots.new ≡ planner_in p slots.old }
{
    context(p.context, slots);
    phase_of(p.phase, slots);
}

#[tactic(auto, unfolding(crate::specs::Slots::context_in, vhdx_slots::specs::Slots::in_slots))]
fn context(c: Context, slots: &mut [u64; 64])
    ensures { slots.new ≡ context_in c slots.old }
{
    slots[1] = c.length;
    slots[2] = c.capacity;
    slots[3] = c.log.offset;
    slots[4] = c.log.length;
    slots[5] = c.guid.low;
    slots[6] = c.guid.high;
}

#[tactic(auto, unfolding(crate::specs::Slots::phase_in, vhdx_slots::specs::Slots::in_slots))]
fn phase_of(phase: Phase, slots: &mut [u64; 64])
    ensures { slots.new ≡ phase_in phase slots.old }
{
    match phase {
        Phase::Header(s) => {
            slots[7] = 1;
            header(s, slots);
        }
        Phase::Scan(s) => {
            slots[7] = 2;
            scanner(s, slots);
        }
        Phase::Survey(s) => {
            slots[7] = 3;
            surveying(s, slots);
        }
    }
}

#[tactic(auto, unfolding(crate::specs::Slots::header_in, vhdx_slots::specs::Slots::in_slots))]
fn header(stage: vhdx_pieces_header::Stage, slots: &mut [u64; 64])
    ensures { slots.new ≡ header_in stage slots.old }
{
    match stage {
        vhdx_pieces_header::Stage::Identifier => {
            slots[8] = 1;
        }
        vhdx_pieces_header::Stage::First => {
            slots[8] = 2;
        }
        vhdx_pieces_header::Stage::Second(c) => {
            let h = c.header;
            slots[8] = 3;
            slots[9] = vhdx_slots::bit_of(c.valid);
            slots[10] = vhdx_slots::bit_of(c.rules);
            slots[11] = h.slot;
            slots[12] = h.sequence_number;
            slots[13] = h.log_guid.low;
            slots[14] = h.log_guid.high;
            slots[15] = h.log_offset;
            slots[16] = h.log_length;
        }
    }
}

#[tactic(auto, unfolding(crate::specs::Slots::scanner_in, vhdx_slots::specs::Slots::in_slots))]
fn scanner(s: Scanner, slots: &mut [u64; 64])
    ensures { slots.new ≡ scanner_in s slots.old }
{
    let run = s.trace.start;
    slots[8] = s.place.pos.at as u64;
    slots[9] = s.place.pos.len as u64;
    slots[10] = s.place.count as u64;
    slots[11] = run.pos.at as u64;
    slots[12] = run.pos.len as u64;
    slots[13] = run.count as u64;
    slots[14] = s.trace.next as u64;
    slots[15] = s.trace.number;
    best(s.trace.best, slots);
    stage_of(s.stage, slots);
}

#[tactic(auto, unfolding(crate::specs::Slots::best_in, vhdx_slots::specs::Slots::in_slots))]
fn best(found: Option<Sequence>, slots: &mut [u64; 64])
    ensures { slots.new ≡ best_in found slots.old }
{
    if let Some(q) = found {
        slots[16] = 1;
        slots[17] = q.start as u64;
        slots[18] = q.more;
        slots[19] = q.number;
    }
}

#[tactic(auto, unfolding(crate::specs::Slots::stage_in, vhdx_slots::specs::Slots::in_slots))]
fn stage_of(stage: vhdx_pieces_scan::Stage, slots: &mut [u64; 64])
    ensures { slots.new ≡ stage_in stage slots.old }
{
    match stage {
        vhdx_pieces_scan::Stage::First => {
            slots[20] = 1;
        }
        vhdx_pieces_scan::Stage::Inside(x) => {
            slots[20] = 2;
            slots[21] = x.number;
            slots[22] = x.tail as u64;
            slots[23] = x.count as u64;
            slots[24] = x.bytes as u64;
            slots[25] = x.sum as u64;
            slots[26] = x.seen as u64;
            slots[27] = x.found as u64;
            slots[28] = x.read as u64;
            slots[29] = x.state as u64;
        }
        vhdx_pieces_scan::Stage::Tail(e) => {
            slots[20] = 3;
            slots[21] = e.size as u64;
            slots[22] = e.number;
            slots[23] = e.tail as u64;
        }
    }
}

#[tactic(auto, unfolding(crate::specs::Slots::surveying_in, vhdx_slots::specs::Slots::in_slots))]
fn surveying(s: Surveying, slots: &mut [u64; 64])
    ensures { slots.new ≡ surveying_in s slots.old }
{
    slots[8] = s.found.start as u64;
    slots[9] = s.found.more;
    slots[10] = s.found.number;
    tour(s.tour, slots);
}

#[tactic(auto, unfolding(crate::specs::Slots::tour_in, vhdx_slots::specs::Slots::in_slots))]
fn tour(t: Tour, slots: &mut [u64; 64])
    ensures { slots.new ≡ tour_in t slots.old }
{
    slots[11] = t.pos.at as u64;
    slots[12] = t.pos.len as u64;
    slots[13] = t.left;
    slots[14] = t.count as u64;
    slots[15] = t.size as u64;
    slots[16] = t.seen as u64;
    slots[17] = t.read as u64;
    slots[18] = t.flushed;
    slots[19] = t.last;
    slots[20] = vhdx_slots::bit_of(t.found.lies);
    slots[21] = t.found.end;
    slots[22] = t.found.count;
}

#[tactic(auto, unfolding(crate::specs::Slots::order_in, vhdx_slots::specs::Slots::in_slots))]
pub fn order(o: Order, slots: &mut [u64; 64])
    ensures { slots.new ≡ order_in o slots.old }
{
    slots[1] = o.length;
    slots[2] = o.count;
    slots[3] = o.log.offset;
    slots[4] = o.log.length;
    slots[5] = o.start as u64;
    slots[6] = o.left;
}

#[tactic(auto, unfolding(crate::specs::Slots::doing_in, vhdx_slots::specs::Slots::in_slots))]
pub fn doing(d: Doing, slots: &mut [u64; 64])
    ensures { slots.new ≡ doing_in d slots.old }
{
    order(d.order, slots);
    slots[7] = d.unwritten;
    walker(d.walker, slots);
}

#[tactic(auto, unfolding(crate::specs::Slots::walker_in, vhdx_slots::specs::Slots::in_slots))]
fn walker(w: Walker, slots: &mut [u64; 64])
    ensures { slots.new ≡ walker_in w slots.old }
{
    slots[8] = w.pos.at as u64;
    slots[9] = w.pos.len as u64;
    slots[10] = w.left;
    slots[11] = w.count as u64;
    slots[12] = w.size as u64;
    slots[13] = w.index as u64;
    slots[14] = w.data as u64;
    turn(w.stage, slots);
}

#[tactic(auto, unfolding(crate::specs::Slots::turn_in, vhdx_slots::specs::Slots::in_slots))]
fn turn(stage: vhdx_pieces_walk::Stage, slots: &mut [u64; 64])
    ensures { slots.new ≡ turn_in stage slots.old }
{
    match stage {
        vhdx_pieces_walk::Stage::Header => {
            slots[15] = 1;
        }
        vhdx_pieces_walk::Stage::Descriptors => {
            slots[15] = 2;
        }
        vhdx_pieces_walk::Stage::Data(d) => {
            slots[15] = 3;
            held(d, slots);
        }
        vhdx_pieces_walk::Stage::Sector(d) => {
            slots[15] = 4;
            held(d, slots);
        }
        vhdx_pieces_walk::Stage::Zeros(e) => {
            slots[15] = 5;
            slots[16] = e.offset;
            slots[17] = e.length;
        }
    }
}

#[tactic(auto, unfolding(crate::specs::Slots::held_in, vhdx_slots::specs::Slots::in_slots))]
fn held(d: Held, slots: &mut [u64; 64])
    ensures { slots.new ≡ held_in d slots.old }
{
    slots[16] = d.offset;
    slots[17] = d.leading;
    slots[18] = d.trailing as u64;
    slots[19] = d.rank as u64;
}
