// The log's work in pieces for callers of any language: the machine is 64 numbers, whatever they are, and what it asks for is three.
#![tactic(auto)]

ghost use Rattle.std.specs.Prelude.{◌≡◌};
ghost use Rattle.vhdx_pieces.specs.Machines.{Sane, Kept, started};
ghost use Rattle.vhdx_pieces_slots.specs.Loading.{loaded};
ghost use Rattle.vhdx_pieces_calls.specs.Calls.{request_of, numbers_of, piece_of, turn_of, next_request, next_numbers, next_piece};

use vhdx_pieces::{Machine, Turn};
use vhdx_replay::store;

// The kind: 0 refused, 1 read, 2 grow, 3 write, 4 done, 5 no machine has these numbers. Then the refusal's number; the offset and
// how many bytes; the length; the offset and whether it is a data descriptor's; the final length and the count.
// The kind is a number, since C reads it.
#[derive(Clone, Copy)]
pub struct Request {
    pub kind: u64,
    pub first: u64,
    pub second: u64,
}

// Of a file of this length, in this capacity.
pub fn start(length: u64, capacity: u64, machine: &mut [u64; 64]) -> Request
    ensures value { result ≡ request_of (started length capacity) }
    ensures machine_after { machine.new ≡ numbers_of (started length capacity) }
{
    answer(vhdx_pieces::start(length, capacity), machine)
}

// Handed in, after what it asked for: after a read the piece's first so many bytes are the file's. At a write its first 4,096 are what
// is to be written.
pub fn next(machine: &mut [u64; 64], piece: &mut [u8; 65536]) -> Request
    ensures value { result ≡ next_request (loaded machine.old) piece.old }
    ensures machine_after { machine.new ≡ next_numbers (loaded machine.old) machine.old piece.old }
    ensures piece_after { piece.new ≡ next_piece (loaded machine.old) piece.old }
{
    match vhdx_pieces_slots::load(machine) {
        Some(m) => {
            let turn = turn(m, piece);
            fill(turn, piece);
            answer(turn, machine)
        }
        None => Request {
            kind: 5,
            first: 0,
            second: 0,
        },
    }
}

fn turn(m: Machine, piece: &[u8; 65536]) -> Turn
    requires { Sane m }
    ensures { (result ≡ turn_of m piece.now) × Kept result }
{
    let n = vhdx_pieces::wanted(m).length as usize;
    vhdx_pieces::next(m, &piece[..n])
}

// At a write, what is to be written.
fn fill(turn: Turn, piece: &mut [u8; 65536])
    ensures { piece.new ≡ piece_of turn piece.old }
{
    if let Turn::Write(m) = turn {
        let mut sector = *field::array_at(piece, 0);
        vhdx_pieces::fill(m, &mut sector);
        store::bytes(piece, 0, &sector);
    }
}

// What is asked for; the machine is kept where it goes on.
fn answer(turn: Turn, machine: &mut [u64; 64]) -> Request
    requires { Kept turn }
    ensures value { result ≡ request_of turn }
    ensures machine_after { machine.new ≡ numbers_of turn }
{
    keep(turn, machine);
    asked_by(turn)
}

fn keep(turn: Turn, machine: &mut [u64; 64])
    ensures { machine.new ≡ numbers_of turn }
{
    match turn {
        Turn::Read(m) | Turn::Grow(m) | Turn::Write(m) => vhdx_pieces_slots::save(m, machine),
        Turn::Done(_) | Turn::Refused(_) => vhdx_pieces_slots::clear(machine),
    }
}

fn asked_by(turn: Turn) -> Request
    requires { Kept turn }
    ensures { result ≡ request_of turn }
{
    match turn {
        Turn::Read(m) => {
            let wanted = vhdx_pieces::wanted(m);
            Request {
                kind: 1,
                first: wanted.offset,
                second: wanted.length,
            }
        }
        Turn::Grow(m) => Request {
            kind: 2,
            first: vhdx_pieces::growth(m),
            second: 0,
        },
        Turn::Write(m) => Request {
            kind: 3,
            first: vhdx_pieces::write_offset(m),
            second: vhdx_slots::bit_of(vhdx_pieces::is_data(m)),
        },
        Turn::Done(finish) => Request {
            kind: 4,
            first: finish.length,
            second: finish.count,
        },
        Turn::Refused(refusal) => Request {
            kind: 0,
            first: refusal.number(),
            second: 0,
        },
    }
}
