// What a planner keeps to.
ghost use Rattle.std.specs.Prelude.{◌≡◌, ◌<◌};
ghost use Rattle.vhdx_pieces_sanity.specs.Sanity.{bounded, placed, upright, readable, ended, staged, scanning, opened, touring, sane_scan, sane_survey, sane_phase};

use crate::ring;
use vhdx_entry::{Entry, descriptor};
use vhdx_pieces_entry::Reading;
use vhdx_pieces_plan::{Context, Phase, Planner, Surveying};
use vhdx_pieces_scan::{Scanner, Stage};
use vhdx_pieces_survey::Tour;
use vhdx_sequence::lap::Place;
use vhdx_sequence::scan::Trace;

#[tactic(auto, unfolding(crate::specs::Sanity::sane_phase))]
pub fn is_sane(p: Planner) -> bool
    ensures { result ≡ sane_phase p.context p.phase }
{
    match p.phase {
        Phase::Header(_) => extent::MIB <= p.context.length,
        Phase::Scan(s) => is_scan_sane(p.context, s),
        Phase::Survey(s) => is_survey_sane(p.context, s),
    }
}

#[tactic(auto, unfolding(crate::specs::Sanity::bounded))]
fn is_bounded(c: Context) -> bool
    ensures { result ≡ bounded c }
{
    c.log.length < 4294967296 && extent::is_in_bounds(c.log, c.length)
}

#[tactic(auto, unfolding(crate::specs::Sanity::sane_scan))]
fn is_scan_sane(c: Context, s: Scanner) -> bool
    ensures { result ≡ sane_scan c s }
{
    is_bounded(c) && is_scanning(s) && s.place.pos.len == vhdx_pieces_plan::sectors(c.log)
}

#[tactic(auto, unfolding(crate::specs::Sanity::scanning))]
fn is_scanning(s: Scanner) -> bool
    ensures { result ≡ scanning s }
{
    is_upright(s.trace, s.place) && is_staged(s.place.pos.len, s.stage)
}

#[tactic(auto, unfolding(crate::specs::Sanity::upright))]
fn is_upright(t: Trace, p: Place) -> bool
    ensures { result ≡ upright t p }
{
    let n = p.pos.len;
    n < 1048576
        && p.count < n + n
        && is_placed(n, p)
        && is_placed(n, t.start)
        && t.start.count <= p.count
}

fn is_placed(n: usize, p: Place) -> bool
    requires { 0 < n }
    ensures { result ≡ placed n p }
{
    p.pos.at == p.count % n && p.pos.len == n
}

#[tactic(auto, unfolding(crate::specs::Sanity::staged))]
fn is_staged(n: usize, stage: Stage) -> bool
    ensures { result ≡ staged n stage }
{
    match stage {
        Stage::First => true,
        Stage::Inside(x) => is_readable(n, x),
        Stage::Tail(e) => is_ended(n, e),
    }
}

#[tactic(auto, unfolding(crate::specs::Sanity::readable))]
fn is_readable(n: usize, x: Reading) -> bool
    ensures { result ≡ readable n x }
{
    x.count < 4294967296
        && x.seen <= x.count
        && x.found <= x.seen
        && descriptor::sectors(x.count) <= n
        && x.tail < n
        && x.read < n
}

fn is_ended(n: usize, e: Entry) -> bool
    ensures { result ≡ ended n e }
{
    0 < e.size && e.size <= n && e.tail < n
}

#[tactic(auto, unfolding(crate::specs::Sanity::sane_survey))]
fn is_survey_sane(c: Context, s: Surveying) -> bool
    ensures { result ≡ sane_survey c s }
{
    let n = vhdx_pieces_plan::sectors(c.log);
    is_bounded(c)
        && is_touring(s.tour)
        && s.tour.pos.len == n
        && s.found.start < n
        && s.found.more < n as u64
}

#[tactic(auto, unfolding(crate::specs::Sanity::touring))]
fn is_touring(t: Tour) -> bool
    ensures { result ≡ touring t }
{
    ring::is_standing(t.pos, t.left)
        && t.read < t.pos.len
        && (t.read == 0 || (is_opened(t) && t.seen < t.count))
}

#[tactic(auto, unfolding(crate::specs::Sanity::opened))]
fn is_opened(t: Tour) -> bool
    requires { t.read < 1048576 }
    ensures { result ≡ opened t }
{
    t.count < 4294967296
        && t.seen <= t.count
        && 64 + 32 * t.seen == t.read * 4096 + vhdx_pieces_entry::from(t.read)
        && descriptor::sectors(t.count) <= t.size
        && t.size <= t.pos.len
}
