// A log entry read sector by sector, each sector once: structure and checksum in one pass. A reading is handed in with the next
// sector, and handed back moved.
// Its module: `sector`, the descriptors that stand in one sector.
#![tactic(auto)]

pub mod sector;

ghost use Rattle.std.specs.Prelude.{◌≡◌, ◌+◌, ◌<◌, min};
ghost use Rattle.vhdx_pieces_entry.specs.Pass.{Sane, Kept, Sized, beginning, past as past_of, state_on, from_of, places_in, closed as closed_of, settled as settled_on_all, on_front, on_data, further as further_on, first as first_of};

use std::ops::ControlFlow;
use vhdx_entry::{Entry, body, descriptor, header};

// What the header says: the entry's number, its Tail in sectors, how many descriptors it has, its length in bytes, its checksum.
// What was read: descriptors seen, data descriptors among them, sectors, and the checksum's state.
#[derive(Clone, Copy)]
pub struct Reading {
    pub number: u64,
    pub tail: usize,
    pub count: usize,
    pub bytes: usize,
    pub sum: u32,
    pub seen: usize,
    pub found: usize,
    pub read: usize,
    pub state: u32,
}

// A further sector is wanted, or what starts at the first one is known: a valid entry, or none.
pub type Progress = ControlFlow<Option<Entry>, Reading>;

// The sector that an entry of a log of n sectors may start with, in an image whose log has this identifier.
pub fn first(s: &[u8; 4096], guid: field::Guid, n: usize) -> Progress
    requires { n < 33554432 }
    ensures value { result ≡ first_of guid n s.now }
    ensures kept { Kept n result }
{
    let fits = descriptor::sectors(header::descriptor_count(s)) <= n;
    if header::keeps_rules(s, guid, n * 4096) && fits {
        on_front(begin(s), s, n)
    } else {
        ControlFlow::Break(None)
    }
}

fn begin(s: &[u8; 4096]) -> Reading
    ensures { (result ≡ beginning s.now) × (result.count < 4294967296) }
{
    Reading {
        number: header::sequence_number(s),
        tail: header::tail(s),
        count: header::descriptor_count(s),
        bytes: header::entry_length(s),
        sum: header::checksum(s),
        seen: 0,
        found: 0,
        read: 0,
        state: 0,
    }
}

// The next sector.
pub fn further(x: Reading, s: &[u8; 4096], n: usize) -> Progress
    requires { (n < 33554432) × Sane n x }
    ensures value { result ≡ further_on n x s.now }
    ensures kept { Kept n result }
{
    if x.read < descriptor::sectors(x.count) {
        on_front(x, s, n)
    } else {
        on_data(x, s, n)
    }
}

// A sector with descriptors.
fn on_front(x: Reading, s: &[u8; 4096], n: usize) -> Progress
    requires { (n < 33554432) × Sane n x }
    ensures { result ≡ on_front n x s.now }
{
    let m = here(x.count - x.seen, x.read);
    match sector::descriptors(s, from(x.read), m, x.number) {
        Some(d) => settled(past(x, m, d, s), n),
        None => ControlFlow::Break(None),
    }
}

// A data sector.
fn on_data(x: Reading, s: &[u8; 4096], n: usize) -> Progress
    requires { (n < 33554432) × Sane n x }
    ensures { result ≡ on_data n x s.now }
{
    if body::is_data_sector(s, x.number) {
        settled(past(x, 0, 0, s), n)
    } else {
        ControlFlow::Break(None)
    }
}

// Where in an entry's sector its descriptors begin.
pub fn from(k: usize) -> usize
    ensures { result ≡ from_of k }
{
    if k == 0 { 64 } else { 0 }
}

// How many of the descriptors that are left stand in an entry's sector k: 126 stand in its first, 128 in each other.
pub fn here(left: usize, k: usize) -> usize
    ensures { result ≡ min left (places_in k) }
{
    left.min(if k == 0 { 126 } else { 128 })
}

// Past a sector with m descriptors, d of them data descriptors.
fn past(x: Reading, m: usize, d: usize, s: &[u8; 4096]) -> Reading
    requires { (x.seen + m < 4294967296) × (x.found + d < 4294967296) × (x.read < 4294967296) }
    ensures { result ≡ past_of x m d s.now }
{
    Reading {
        seen: x.seen + m,
        found: x.found + d,
        read: x.read + 1,
        state: state_on(x.read, x.state, s),
        ..x
    }
}

fn state_on(k: usize, state: u32, s: &[u8; 4096]) -> u32
    ensures { result ≡ state_on k state s.now }
{
    if k == 0 {
        crc32c::start_zeroed(s, 4)
    } else {
        crc32c::update(state, s)
    }
}

// What a reading comes to: a sector with descriptors is left, or its length is judged.
#[tactic(auto, unfolding(crate::specs::Pass::settled))]
fn settled(x: Reading, n: usize) -> Progress
    requires { Sized n x }
    ensures { result ≡ settled_on_all n x }
{
    let front = descriptor::sectors(x.count);
    if x.read < front {
        return ControlFlow::Continue(x);
    }
    let size = front + x.found;
    if size <= n && x.bytes == size * 4096 {
        if x.read < size {
            ControlFlow::Continue(x)
        } else {
            closed(x, size)
        }
    } else {
        ControlFlow::Break(None)
    }
}

// All its sectors were read: the checksum decides.
#[tactic(auto, unfolding(crate::specs::Pass::closed))]
fn closed(x: Reading, size: usize) -> Progress
    ensures { result ≡ closed_of x size }
{
    let sums_agree = x.sum == crc32c::finish(x.state);
    ControlFlow::Break(sums_agree.then_some(Entry {
        size,
        number: x.number,
        tail: x.tail,
    }))
}
