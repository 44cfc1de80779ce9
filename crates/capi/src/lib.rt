// What C and Rust link: the calls over numbers and arrays. Each takes its arrays apart and makes the proved call.
#![tactic(auto)]

ghost use Rattle.std.specs.Prelude.{◌≡◌};
ghost use Rattle.decision.specs.Refusal.{refusal_of, outcome};
ghost use Rattle.vhdx_close_steps.specs.Close.{after_close, close_answer, after_close_step, close_step_answer};
ghost use Rattle.vhdx_map.specs.Lookup.{lookup, figures as figures_of};
ghost use Rattle.vhdx_parent.specs.Key.{key_extent};
ghost use Rattle.vhdx_pieces.specs.Machines.{started};
ghost use Rattle.vhdx_pieces_calls.specs.Calls.{request_of, numbers_of, next_request, next_numbers, next_piece};
ghost use Rattle.vhdx_pieces_slots.specs.Loading.{loaded};
ghost use Rattle.vhdx_steps.specs.Calls.{file};
ghost use Rattle.vhdx.specs.Attach.{after_attach, attach_answer};
ghost use Rattle.vhdx.specs.Plan.{plan_answer};
ghost use Rattle.vhdx.specs.Step.{after_step, step_answer};
ghost use Rattle.vhdx_slots.specs.Slots.{facts_from};
ghost use Rattle.capi.specs.Answers.{rest_cleared, attached_in, planned_in, stepped_in, closed_in, request_in, refused_by, figures_in, extent_in};

use decision::Refusal;
use vhdx::Planned;
use vhdx_close_steps::Closed;
use vhdx_map::Place;
use vhdx_pieces_calls::Request;

// Slots 16 to 31, which have no meaning yet.
#[tactic(auto, using(crate::proofs::Slots::filled))]
fn clear_rest(answer: &mut [u64; 32])
    ensures { answer.new ≡ rest_cleared answer.old }
{
    answer[16..].fill(0);
}

// The refusal's number or 0.
fn number_of<T>(answer: &Result<T, Refusal>) -> u64
    ensures { result ≡ refusal_of (outcome answer.now) }
{
    match answer {
        Ok(_) => 0,
        Err(refusal) => refusal.number(),
    }
}

// The refusal's number or 0. The answer: that number, length, count, the facts, zeros.
#[unsafe(no_mangle)]
pub extern "C" fn shrunvaki_vhdx_attach(
    buffer: &mut [u8],
    length: u64,
    answer: &mut [u64; 32],
) -> u64
    ensures value { result ≡ (attach_answer (file buffer.old length)).refusal }
    ensures buffer_after { buffer.new ≡ (after_attach (file buffer.old length)).buffer }
    ensures answer_after { answer.new ≡ attached_in (attach_answer (file buffer.old length)) answer.old }
{
    let attached = vhdx::attach(buffer, length);
    answer[0] = number_of(&attached.facts);
    answer[1] = attached.length;
    answer[2] = attached.count;
    vhdx_slots::write(attached.facts.unwrap_or(vhdx_facts::none()), answer);
    clear_rest(answer);
    number_of(&attached.facts)
}

// The refusal's number or 0. The answer: that number, length, count, zero.
#[tactic(auto, using(crate::proofs::Told::planned), unfolding(vhdx_slots::specs::Slots::in_slots))]
#[unsafe(no_mangle)]
pub extern "C" fn shrunvaki_vhdx_plan(buffer: &[u8], length: u64, answer: &mut [u64; 4]) -> u64
    ensures value { result ≡ (plan_answer (file buffer.now length)).refusal }
    ensures answer_after { answer.new ≡ planned_in (plan_answer (file buffer.now length)) answer.old }
{
    let result = vhdx::plan(buffer, length);
    let planned = result.unwrap_or(Planned { length, count: 0 });
    answer[0] = number_of(&result);
    answer[1] = planned.length;
    answer[2] = planned.count;
    answer[3] = 0;
    number_of(&result)
}

// The refusal's number or 0. The answer: that number, length.
#[tactic(auto, using(crate::proofs::Told::stepped), unfolding(vhdx_slots::specs::Slots::in_slots))]
#[unsafe(no_mangle)]
pub extern "C" fn shrunvaki_vhdx_step(
    buffer: &mut [u8],
    length: u64,
    k: u64,
    answer: &mut [u64; 2],
) -> u64
    ensures value { result ≡ (step_answer k (file buffer.old length)).refusal }
    ensures buffer_after { buffer.new ≡ (after_step k (file buffer.old length)).buffer }
    ensures answer_after { answer.new ≡ stepped_in (step_answer k (file buffer.old length)) answer.old }
{
    let stepped = vhdx::step(buffer, length, k);
    answer[0] = number_of(&stepped);
    answer[1] = stepped.unwrap_or(length);
    number_of(&stepped)
}

// The refusal's number or 0. The answer: that number, length, count.
#[tactic(auto, using(crate::proofs::Told::closed), unfolding(vhdx_slots::specs::Slots::in_slots))]
#[unsafe(no_mangle)]
pub extern "C" fn shrunvaki_vhdx_close(
    buffer: &mut [u8],
    length: u64,
    identifier: &[u8; 16],
    answer: &mut [u64; 3],
) -> u64
    ensures value { result ≡ (close_answer identifier.now (file buffer.old length)).refusal }
    ensures buffer_after { buffer.new ≡ (after_close identifier.now (file buffer.old length)).buffer }
    ensures answer_after { answer.new ≡ closed_in (close_answer identifier.now (file buffer.old length)) answer.old }
{
    let result = vhdx::close(buffer, length, identifier);
    let closed = result.unwrap_or(Closed { length, count: 0 });
    answer[0] = number_of(&result);
    answer[1] = closed.length;
    answer[2] = closed.count;
    number_of(&result)
}

// The refusal's number or 0. The answer: that number, length.
#[tactic(auto, using(crate::proofs::Told::stepped), unfolding(vhdx_slots::specs::Slots::in_slots))]
#[unsafe(no_mangle)]
pub extern "C" fn shrunvaki_vhdx_close_step(
    buffer: &mut [u8],
    length: u64,
    identifier: &[u8; 16],
    k: u64,
    answer: &mut [u64; 2],
) -> u64
    ensures value { result ≡ (close_step_answer identifier.now k (file buffer.old length)).refusal }
    ensures buffer_after { buffer.new ≡ (after_close_step identifier.now k (file buffer.old length)).buffer }
    ensures answer_after { answer.new ≡ stepped_in (close_step_answer identifier.now k (file buffer.old length)) answer.old }
{
    let done = vhdx::close_step(buffer, length, identifier, k);
    answer[0] = number_of(&done);
    answer[1] = done.unwrap_or(length);
    number_of(&done)
}

// The request's kind and its two numbers, zero.
#[tactic(auto, unfolding(vhdx_slots::specs::Slots::in_slots))]
fn put_request(request: Request, answer: &mut [u64; 4]) -> u64
    ensures value { result ≡ refused_by request }
    ensures answer_after { answer.new ≡ request_in request answer.old }
{
    answer[0] = request.kind;
    answer[1] = request.first;
    answer[2] = request.second;
    answer[3] = 0;
    if request.kind == 0 { request.first } else { 0 }
}

// The refusal's number or 0. The answer: what is asked for (0 refused, 1 read, 2 grow, 3 write, 4 done) and its two numbers, zero.
#[unsafe(no_mangle)]
pub extern "C" fn shrunvaki_vhdx_pieces_start(
    length: u64,
    capacity: u64,
    machine: &mut [u64; 64],
    answer: &mut [u64; 4],
) -> u64
    ensures value { result ≡ refused_by (request_of (started length capacity)) }
    ensures machine_after { machine.new ≡ numbers_of (started length capacity) }
    ensures answer_after { answer.new ≡ request_in (request_of (started length capacity)) answer.old }
{
    put_request(vhdx_pieces_calls::start(length, capacity, machine), answer)
}

// The same, after what was asked for is done; 5 where no machine has these numbers.
#[unsafe(no_mangle)]
pub extern "C" fn shrunvaki_vhdx_pieces_next(
    machine: &mut [u64; 64],
    piece: &mut [u8; 65536],
    answer: &mut [u64; 4],
) -> u64
    ensures value { result ≡ refused_by (next_request (loaded machine.old) piece.old) }
    ensures machine_after { machine.new ≡ next_numbers (loaded machine.old) machine.old piece.old }
    ensures piece_after { piece.new ≡ next_piece (loaded machine.old) piece.old }
    ensures answer_after { answer.new ≡ request_in (next_request (loaded machine.old) piece.old) answer.old }
{
    put_request(vhdx_pieces_calls::next(machine, piece), answer)
}

// The kind of answer, and the refusal's number or the offset.
fn figures(place: Result<Place, Refusal>) -> (u64, u64)
    ensures { result ≡ figures_of (outcome place) }
{
    match place {
        Err(refusal) => (0, refusal.number()),
        Ok(Place::File(offset)) => (1, offset),
        Ok(Place::Zero) => (2, 0),
        Ok(Place::Parent) => (3, 0),
    }
}

// The refusal's number or 0. The answer: 0 refused, 1 in the file, 2 zero, 3 in the parent; the number, the offset in the
// file, or 0. The facts are the array that attach answered.
#[tactic(auto, unfolding(vhdx_slots::specs::Slots::in_slots))]
#[unsafe(no_mangle)]
pub extern "C" fn shrunvaki_vhdx_lookup(
    facts: &[u64; 32],
    buffer: &[u8],
    length: u64,
    sector: u64,
    answer: &mut [u64; 2],
) -> u64
    ensures value { result ≡ refusal_of (lookup (facts_from facts.now) buffer.now length sector) }
    ensures answer_after { answer.new ≡ figures_in (lookup (facts_from facts.now) buffer.now length sector) answer.old }
{
    let place = vhdx::lookup(vhdx_slots::read(facts), buffer, length, sector);
    let (kind, number) = figures(place);
    answer[0] = kind;
    answer[1] = number;
    number_of(&place)
}

// The answer: offset and length of the value in the image, 0 and 0 where there is none.
#[tactic(auto, unfolding(vhdx_slots::specs::Slots::in_slots))]
#[unsafe(no_mangle)]
pub extern "C" fn shrunvaki_vhdx_parent_key(
    facts: &[u64; 32],
    buffer: &[u8],
    length: u64,
    key: &[u8],
    answer: &mut [u64; 2],
)
    ensures { answer.new ≡ extent_in (key_extent (facts_from facts.now) buffer.now length key.now) answer.old }
{
    let value = vhdx::parent_key_extent(vhdx_slots::read(facts), buffer, length, key);
    answer[0] = value.offset;
    answer[1] = value.length;
}
