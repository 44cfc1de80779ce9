// The parts of a machine out of their slots. Of numbers that were not written here something is read, too.
ghost use Rattle.std.specs.Prelude.{◌≡◌};
ghost use Rattle.vhdx_pieces_slots.specs.Slots.{context_from, candidate_from, header_from, best_from, reading_from, stage_from, scanner_from, tour_from, surveying_from, phase_from, planner_from, order_from, held_from, turn_from, walker_from, doing_from, machine_from};

use extent::Extent;
use field::Guid;
use vhdx_entry::Entry;
use vhdx_entry::ring::RingPos;
use vhdx_header::Header;
use vhdx_log::survey::Survey;
use vhdx_pieces::{Doing, Machine};
use vhdx_pieces_entry::Reading;
use vhdx_pieces_header::Candidate;
use vhdx_pieces_plan::{Context, Order, Phase, Planner, Surveying};
use vhdx_pieces_scan::Scanner;
use vhdx_pieces_survey::Tour;
use vhdx_pieces_walk::{Held, Walker};
use vhdx_sequence::Sequence;
use vhdx_sequence::lap::Place;
use vhdx_sequence::scan::Trace;

#[tactic(auto, unfolding(crate::specs::Slots::machine_from))]
pub fn machine(slots: &[u64; 64]) -> Machine
    ensures { result ≡ machine_from slots.now }
{
    match slots[0] {
        1 => Machine::Planning(planner(slots)),
        2 => Machine::Growing(order(slots)),
        3 => Machine::Reading(doing(slots)),
        _ => Machine::Writing(doing(slots)),
    }
}

#[tactic(auto, unfolding(crate::specs::Slots::planner_from))]
fn planner(slots: &[u64; 64]) -> Planner
    ensures { result ≡ planner_from slots.now }
{
    Planner {
        context: context(slots),
        phase: phase(slots),
    }
}

fn context(slots: &[u64; 64]) -> Context
    ensures { result ≡ context_from slots.now }
{
    Context {
        length: slots[1],
        capacity: slots[2],
        log: Extent {
            offset: slots[3],
            length: slots[4],
        },
        guid: Guid {
            low: slots[5],
            high: slots[6],
        },
    }
}

#[tactic(auto, unfolding(crate::specs::Slots::phase_from))]
fn phase(slots: &[u64; 64]) -> Phase
    ensures { result ≡ phase_from slots.now }
{
    match slots[7] {
        1 => Phase::Header(header(slots)),
        2 => Phase::Scan(scanner(slots)),
        _ => Phase::Survey(surveying(slots)),
    }
}

#[tactic(auto, unfolding(crate::specs::Slots::header_from))]
fn header(slots: &[u64; 64]) -> vhdx_pieces_header::Stage
    ensures { result ≡ header_from slots.now }
{
    match slots[8] {
        1 => vhdx_pieces_header::Stage::Identifier,
        2 => vhdx_pieces_header::Stage::First,
        _ => vhdx_pieces_header::Stage::Second(candidate(slots)),
    }
}

fn candidate(slots: &[u64; 64]) -> Candidate
    ensures { result ≡ candidate_from slots.now }
{
    Candidate {
        valid: slots[9] != 0,
        rules: slots[10] != 0,
        header: Header {
            slot: slots[11],
            sequence_number: slots[12],
            log_guid: Guid {
                low: slots[13],
                high: slots[14],
            },
            log_offset: slots[15],
            log_length: slots[16],
        },
    }
}

#[tactic(auto, unfolding(crate::specs::Slots::scanner_from))]
fn scanner(slots: &[u64; 64]) -> Scanner
    ensures { result ≡ scanner_from slots.now }
{
    Scanner {
        trace: Trace {
            start: Place {
                pos: RingPos {
                    at: slots[11] as usize,
                    len: slots[12] as usize,
                },
                count: slots[13] as usize,
            },
            next: slots[14] as usize,
            number: slots[15],
            best: best(slots),
        },
        place: Place {
            pos: RingPos {
                at: slots[8] as usize,
                len: slots[9] as usize,
            },
            count: slots[10] as usize,
        },
        stage: stage(slots),
    }
}

fn best(slots: &[u64; 64]) -> Option<Sequence>
    ensures { result ≡ best_from slots.now }
{
    match slots[16] {
        1 => Some(Sequence {
            start: slots[17] as usize,
            more: slots[18],
            number: slots[19],
        }),
        _ => None,
    }
}

#[tactic(auto, unfolding(crate::specs::Slots::stage_from))]
fn stage(slots: &[u64; 64]) -> vhdx_pieces_scan::Stage
    ensures { result ≡ stage_from slots.now }
{
    match slots[20] {
        1 => vhdx_pieces_scan::Stage::First,
        2 => vhdx_pieces_scan::Stage::Inside(reading(slots)),
        _ => vhdx_pieces_scan::Stage::Tail(Entry {
            size: slots[21] as usize,
            number: slots[22],
            tail: slots[23] as usize,
        }),
    }
}

fn reading(slots: &[u64; 64]) -> Reading
    ensures { result ≡ reading_from slots.now }
{
    Reading {
        number: slots[21],
        tail: slots[22] as usize,
        count: slots[23] as usize,
        bytes: slots[24] as usize,
        sum: (slots[25] % 4294967296) as u32,
        seen: slots[26] as usize,
        found: slots[27] as usize,
        read: slots[28] as usize,
        state: (slots[29] % 4294967296) as u32,
    }
}

#[tactic(auto, unfolding(crate::specs::Slots::surveying_from))]
fn surveying(slots: &[u64; 64]) -> Surveying
    ensures { result ≡ surveying_from slots.now }
{
    Surveying {
        found: Sequence {
            start: slots[8] as usize,
            more: slots[9],
            number: slots[10],
        },
        tour: tour(slots),
    }
}

fn tour(slots: &[u64; 64]) -> Tour
    ensures { result ≡ tour_from slots.now }
{
    Tour {
        pos: RingPos {
            at: slots[11] as usize,
            len: slots[12] as usize,
        },
        left: slots[13],
        count: slots[14] as usize,
        size: slots[15] as usize,
        seen: slots[16] as usize,
        read: slots[17] as usize,
        flushed: slots[18],
        last: slots[19],
        found: Survey {
            lies: slots[20] != 0,
            end: slots[21],
            count: slots[22],
        },
    }
}

fn order(slots: &[u64; 64]) -> Order
    ensures { result ≡ order_from slots.now }
{
    Order {
        length: slots[1],
        count: slots[2],
        log: Extent {
            offset: slots[3],
            length: slots[4],
        },
        start: slots[5] as usize,
        left: slots[6],
    }
}

#[tactic(auto, unfolding(crate::specs::Slots::doing_from))]
fn doing(slots: &[u64; 64]) -> Doing
    ensures { result ≡ doing_from slots.now }
{
    Doing {
        order: order(slots),
        walker: walker(slots),
        unwritten: slots[7],
    }
}

#[tactic(auto, unfolding(crate::specs::Slots::walker_from))]
fn walker(slots: &[u64; 64]) -> Walker
    ensures { result ≡ walker_from slots.now }
{
    Walker {
        pos: RingPos {
            at: slots[8] as usize,
            len: slots[9] as usize,
        },
        left: slots[10],
        count: slots[11] as usize,
        size: slots[12] as usize,
        index: slots[13] as usize,
        data: slots[14] as usize,
        stage: turn(slots),
    }
}

#[tactic(auto, unfolding(crate::specs::Slots::turn_from))]
fn turn(slots: &[u64; 64]) -> vhdx_pieces_walk::Stage
    ensures { result ≡ turn_from slots.now }
{
    match slots[15] {
        1 => vhdx_pieces_walk::Stage::Header,
        2 => vhdx_pieces_walk::Stage::Descriptors,
        3 => vhdx_pieces_walk::Stage::Data(held(slots)),
        4 => vhdx_pieces_walk::Stage::Sector(held(slots)),
        _ => vhdx_pieces_walk::Stage::Zeros(Extent {
            offset: slots[16],
            length: slots[17],
        }),
    }
}

fn held(slots: &[u64; 64]) -> Held
    ensures { result ≡ held_from slots.now }
{
    Held {
        offset: slots[16],
        leading: slots[17],
        trailing: (slots[18] % 4294967296) as u32,
        rank: slots[19] as usize,
    }
}
