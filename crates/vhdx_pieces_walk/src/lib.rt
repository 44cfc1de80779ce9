// The walk over a found sequence's sectors in pieces, in the order in which they are written: a walker wants a sector of the log, or has
// a sector to write. It is handed in with the sector that it wanted, or after the write, and handed back moved.
#![tactic(auto)]

ghost use Rattle.std.specs.Prelude.{◌≡◌, ◌+◌, ◌*◌, ◌≤◌, ◌<◌};
ghost use Rattle.vhdx_pieces_walk.specs.Walking.{Opened, SaneReading, SaneWriting, Onward, wanted_of, started, resumed, idle_from, allowed, met, looked, opened as opened_of, step_of, wrote_of};

use extent::Extent;
use vhdx_entry::ring::RingPos;
use vhdx_entry::{descriptor, header};
use vhdx_pieces_entry::sector as bytes;

// The log's place in the file, and the file's final length.
#[derive(Clone, Copy)]
pub struct Bounds {
    pub log: Extent,
    pub limit: u64,
}

// A data descriptor that was met: its file offset, its LeadingBytes and TrailingBytes as numbers, and how many data descriptors stand
// before it in its entry.
#[derive(Clone, Copy)]
pub struct Held {
    pub offset: u64,
    pub leading: u64,
    pub trailing: u32,
    pub rank: usize,
}

#[derive(Clone, Copy)]
pub enum Stage {
    // an entry's first sector is wanted
    Header,
    // the sector with the next descriptor is wanted
    Descriptors,
    // a data sector is wanted
    Data(Held),
    // a data sector is to be written
    Sector(Held),
    // a sector of zeros is to be written, the first of this extent
    Zeros(Extent),
}

// In the entry at a position, with `left` entries from it on: its descriptors and sectors, the next descriptor's number, and how many
// data descriptors stand before that one.
#[derive(Clone, Copy)]
pub struct Walker {
    pub pos: RingPos,
    pub left: u64,
    pub count: usize,
    pub size: usize,
    pub index: usize,
    pub data: usize,
    pub stage: Stage,
}

// Four cases with names: a `ControlFlow` has one to go on with and one to end with.
#[derive(Clone, Copy)]
pub enum Step {
    Read(Walker),
    Write(Walker),
    Ended,
    // what was found is there no more
    Broken,
}

// Over the `left` entries from a position on.
pub fn start(pos: RingPos, left: u64) -> Step
    requires { (0 < left → pos.at < pos.len) × (pos.len < 1048576) × (left ≤ pos.len) }
    ensures { (result ≡ started pos left) × ((b : Bounds) → Onward b pos.len result) }
{
    if left == 0 {
        return Step::Ended;
    }
    Step::Read(Walker {
        pos,
        left,
        count: 0,
        size: 0,
        index: 0,
        data: 0,
        stage: Stage::Header,
    })
}

// The sector of the log that it wants.
pub fn wanted(w: Walker) -> usize
    requires { (b : Bounds) × SaneReading b w }
    ensures { (result ≡ wanted_of w) × (result < w.pos.len) }
{
    match w.stage {
        Stage::Descriptors => w.pos.advance((64 + 32 * w.index) / 4096).at,
        Stage::Data(d) => w.pos.advance(descriptor::sectors(w.count) + d.rank).at,
        Stage::Header | Stage::Sector(_) | Stage::Zeros(_) => w.pos.at,
    }
}

// Fed it.
pub fn next(w: Walker, b: Bounds, sector: &[u8; 4096]) -> Step
    requires { SaneReading b w }
    ensures { (result ≡ step_of b w sector.now) × Onward b w.pos.len result }
{
    match w.stage {
        Stage::Header => {
            let o = opened(w, sector);
            if descriptor::sectors(o.count) <= o.size && o.size <= o.pos.len {
                look(o, b, sector)
            } else {
                Step::Broken
            }
        }
        Stage::Descriptors => look(w, b, sector),
        Stage::Data(d) => Step::Write(Walker {
            stage: Stage::Sector(d),
            ..w
        }),
        Stage::Sector(_) | Stage::Zeros(_) => Step::Broken,
    }
}

// The sector was written.
pub fn wrote(w: Walker) -> Step
    requires { (b : Bounds) × SaneWriting b w × (b.limit < 18446744073709551616) }
    ensures { (result ≡ wrote_of w) × ((b : Bounds) → SaneWriting b w → Onward b w.pos.len result) }
{
    match w.stage {
        Stage::Sector(_) => resume(w),
        Stage::Zeros(span) => {
            if 4096 < span.length {
                Step::Write(Walker {
                    stage: Stage::Zeros(Extent {
                        offset: span.offset + 4096,
                        length: span.length - 4096,
                    }),
                    ..w
                })
            } else {
                resume(w)
            }
        }
        Stage::Header | Stage::Descriptors | Stage::Data(_) => Step::Broken,
    }
}

// At an entry's header.
fn opened(w: Walker, h: &[u8; 4096]) -> Walker
    ensures { (result ≡ opened_of w h.now) × (result.count < 4294967296) }
{
    Walker {
        count: header::descriptor_count(h),
        size: header::entry_length(h) / 4096,
        index: 0,
        data: 0,
        stage: Stage::Descriptors,
        ..w
    }
}

// The next descriptor of the sector that names bytes, or what follows where none does.
fn look(w: Walker, b: Bounds, sector: &[u8; 4096]) -> Step
    requires { Opened w }
    ensures { result ≡ looked b w sector.now }
{
    let from = (64 + 32 * w.index) % 4096;
    let m = (w.count - w.index).min((4096 - from) / 32);
    let i = idle(sector, from, m);
    let w = Walker {
        index: w.index + i,
        ..w
    };
    if i < m {
        meet(w, b, field::array_at(sector, from + 32 * i))
    } else {
        resume(w)
    }
}

// How many of the m descriptors from byte `from` of a sector on name no bytes, up to the first that does.
fn idle(s: &[u8; 4096], from: usize, m: usize) -> usize
    requires { from + 32 * m ≤ 4096 }
    ensures { (result ≡ idle_from s.now from 0 m) × (result ≤ m) }
{
    for i in 0..m {
        if bytes::run_length(field::array_at(s, from + 32 * i)) != 0 {
            return i;
        }
    }
    m
}

// Whole sectors that lie neither in the first MiB nor in the log, and end within the final length.
pub fn is_allowed(b: Bounds, offset: u64, n: u64) -> bool
    ensures { result ≡ allowed b offset n }
{
    // `&`, since `&&` is a branch at each test, and the proof is long
    extent::is_inside(offset, n, b.limit)
        & ((n % 4096 == 0)
            & !(extent::share_a_byte(offset, n, 0, extent::MIB)
                | extent::share_a_byte(offset, n, b.log.offset, b.log.length)))
}

// At the next descriptor, which names bytes.
fn meet(w: Walker, b: Bounds, d: &[u8; 32]) -> Step
    requires { Opened w × (w.index < w.count) }
    ensures { result ≡ met b w d.now }
{
    let offset = descriptor::file_offset(d);
    let n = bytes::run_length(d);
    if !is_allowed(b, offset, n) {
        return Step::Broken;
    }
    if !descriptor::is_data(d) {
        return Step::Write(Walker {
            index: w.index + 1,
            stage: Stage::Zeros(Extent { offset, length: n }),
            ..w
        });
    }
    if w.size <= descriptor::sectors(w.count) + w.data {
        return Step::Broken;
    }
    Step::Read(Walker {
        index: w.index + 1,
        data: w.data + 1,
        stage: Stage::Data(Held {
            offset,
            leading: field::u64_at(d, 8),
            trailing: field::u32_at(d, 4),
            rank: w.data,
        }),
        ..w
    })
}

// The next descriptor, the next entry, or the end.
fn resume(w: Walker) -> Step
    requires { Opened w }
    ensures { result ≡ resumed w }
{
    if w.index < w.count {
        return Step::Read(Walker {
            stage: Stage::Descriptors,
            ..w
        });
    }
    if 1 < w.left {
        return Step::Read(Walker {
            pos: w.pos.advance(w.size),
            left: w.left - 1,
            count: 0,
            size: 0,
            index: 0,
            data: 0,
            stage: Stage::Header,
        });
    }
    Step::Ended
}
