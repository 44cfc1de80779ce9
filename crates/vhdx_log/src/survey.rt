// What a sequence's descriptors say together: what refusals 7 and 8 and the count are decided by. All of them are looked at
// before anything is decided.
ghost use Rattle.std.specs.Prelude.{◌≡◌};
ghost use Rattle.vhdx_walk.specs.Cursor.{descriptors_left, Placed};
ghost use Rattle.vhdx_log.specs.Survey.{survey_of, added};

use vhdx_walk::cursor::{Cursor, Move};
use vhdx_walk::run::Run;

// An end or a count above 2^64 - 1 stands as 2^64 - 1.
#[derive(Clone, Copy)]
pub struct Survey {
    // some sector shares a byte with the first MiB or the log
    pub lies: bool,
    // where the furthest sector ends
    pub end: u64,
    // how many sectors there are
    pub count: u64,
}

impl Survey {
    // A run's sectors stand one behind the other, so the whole range is tested at once. A run of length 0 names no sector,
    // so that it ends nowhere.
    pub fn add(self, run: Run, log_offset: u64, log_length: u64) -> Survey
        ensures { result ≡ added (record { offset = log_offset; length = log_length }) self run.offset run.length }
    {
        let end = if run.length == 0 {
            0
        } else {
            run.offset.saturating_add(run.length)
        };
        Survey {
            lies: self.lies
                || extent::share_a_byte(run.offset, run.length, 0, extent::MIB)
                || extent::share_a_byte(run.offset, run.length, log_offset, log_length),
            end: self.end.max(end),
            count: self.count.saturating_add(run.length / 4096),
        }
    }
}

// Of the descriptors that a cursor has before it.
pub fn all(log: &[u8], cursor: Cursor, log_offset: u64, log_length: u64) -> Survey
    requires { Placed log.now cursor }
    ensures { result ≡ survey_of (record { offset = log_offset; length = log_length }) (descriptors_left log.now cursor) }
{
    let mut found = Survey {
        lies: false,
        end: 0,
        count: 0,
    };
    let mut rest = cursor;
    // a `loop`: a move is one of three cases, and the last one answers
    loop {
        match rest.next(log) {
            Move::Done => return found,
            Move::Entry(next) => rest = next,
            Move::Descriptor(run, next) => {
                found = found.add(run, log_offset, log_length);
                rest = next;
            }
        }
    }
}
