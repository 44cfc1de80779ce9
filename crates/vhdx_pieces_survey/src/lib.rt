// What a found sequence's descriptors and its head say, in pieces: a tour over the entries says which sector of the log it wants, is
// handed in with that sector, and handed back moved. Only sectors with descriptors are read, each once.
#![tactic(auto)]

ghost use Rattle.std.specs.Prelude.{◌≡◌, ◌+◌, ◌*◌, ◌≤◌, ◌<◌};
ghost use Rattle.vhdx_pieces_survey.specs.Touring.{Sane, Opened, Full, Onward, wanted_of, started, survey_in, added_by, moved_on, passed, opened as opened_of, step_of};

use extent::Extent;
use std::ops::ControlFlow;
use vhdx_entry::ring::RingPos;
use vhdx_entry::{descriptor, header, ring};
use vhdx_log::survey::Survey;
use vhdx_pieces_entry::sector;
use vhdx_walk::run::{Run, Source};

// In the entry at a position, with `left` entries from it on: its descriptors and sectors, how many descriptors were seen and how
// many of its sectors were read; before the first, its header is wanted. Of the last header read, two offsets. And the survey.
#[derive(Clone, Copy)]
pub struct Tour {
    pub pos: RingPos,
    pub left: u64,
    pub count: usize,
    pub size: usize,
    pub seen: usize,
    pub read: usize,
    pub flushed: u64,
    pub last: u64,
    pub found: Survey,
}

// What the tour comes to: the head's two offsets, and the survey of all descriptors.
#[derive(Clone, Copy)]
pub struct Report {
    pub flushed: u64,
    pub last: u64,
    pub found: Survey,
}

// A sector is wanted, or the tour has ended: without a report, if what was an entry of the sequence is none any more.
pub type Step = ControlFlow<Option<Report>, Tour>;

// Over the entry at a position and the `more` after it.
pub fn start(pos: RingPos, more: u64) -> Step
    requires { (pos.at < pos.len) × (pos.len < 1048576) × (more < pos.len) }
    ensures { (result ≡ started pos more) × Onward pos.len result }
{
    ControlFlow::Continue(Tour {
        pos,
        left: more + 1,
        count: 0,
        size: 0,
        seen: 0,
        read: 0,
        flushed: 0,
        last: 0,
        found: Survey {
            lies: false,
            end: 0,
            count: 0,
        },
    })
}

// The sector of the log that it wants.
pub fn wanted(t: Tour) -> usize
    requires { Sane t }
    ensures { (result ≡ wanted_of t) × (result < t.pos.len) }
{
    t.pos.advance(t.read).at
}

// Fed that sector, of the log that lies there in the file.
pub fn next(t: Tour, log: Extent, s: &[u8; 4096]) -> Step
    requires { Sane t }
    ensures { (result ≡ step_of log t s.now) × Onward t.pos.len result }
{
    if t.read != 0 {
        return pass(t, log, s);
    }
    let o = opened(t, s);
    if descriptor::sectors(o.count) <= o.size && o.size <= o.pos.len {
        pass(o, log, s)
    } else {
        ControlFlow::Break(None)
    }
}

// At an entry's header.
fn opened(t: Tour, h: &[u8; 4096]) -> Tour
    ensures { (result ≡ opened_of t h.now) × (result.count < 4294967296) }
{
    Tour {
        count: header::descriptor_count(h),
        size: header::entry_length(h) / ring::SECTOR,
        seen: 0,
        read: 0,
        flushed: header::flushed_file_offset(h),
        last: header::last_file_offset(h),
        ..t
    }
}

// A sector with descriptors.
fn pass(t: Tour, log: Extent, s: &[u8; 4096]) -> Step
    requires { Opened t }
    ensures { result ≡ passed log t s.now }
{
    let m = vhdx_pieces_entry::here(t.count - t.seen, t.read);
    let from = vhdx_pieces_entry::from(t.read);
    moved(t, m, survey_in(t.found, log, s, from, m))
}

// A survey with the m descriptors from byte `from` of a sector on.
fn survey_in(found: Survey, log: Extent, s: &[u8; 4096], from: usize, m: usize) -> Survey
    requires { from + 32 * m ≤ 4096 }
    ensures { result ≡ survey_in log found s.now from m }
{
    let mut all = found;
    for i in 0..m {
        all = add(all, log, field::array_at(s, from + 32 * i));
    }
    all
}

// With one descriptor more.
#[tactic(auto, unfolding(crate::specs::Touring::added_by))]
fn add(found: Survey, log: Extent, d: &[u8; 32]) -> Survey
    ensures { result ≡ added_by log found d.now }
{
    found.add(
        Run {
            offset: descriptor::file_offset(d),
            length: sector::run_length(d),
            source: Source::Zeros,
        },
        log.offset,
        log.length,
    )
}

// Past m descriptors, with the survey that they made: the next sector of the entry, the next entry, or the end.
#[tactic(auto, unfolding(crate::specs::Touring::moved_on))]
fn moved(t: Tour, m: usize, found: Survey) -> Step
    requires { Opened t × Full t m }
    ensures { result ≡ moved_on t m found }
{
    if t.seen + m < t.count {
        return ControlFlow::Continue(Tour {
            seen: t.seen + m,
            read: t.read + 1,
            found,
            ..t
        });
    }
    if 1 < t.left {
        return ControlFlow::Continue(Tour {
            pos: t.pos.advance(t.size),
            left: t.left - 1,
            count: 0,
            size: 0,
            seen: 0,
            read: 0,
            found,
            ..t
        });
    }
    ControlFlow::Break(Some(Report {
        flushed: t.flushed,
        last: t.last,
        found,
    }))
}
