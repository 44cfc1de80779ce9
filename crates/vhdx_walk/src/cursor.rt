// The walk over a sequence's descriptors: a cursor is handed in, and handed back moved.
ghost use Rattle.std.specs.Prelude.{◌≡◌, ◌<◌};
ghost use Rattle.vhdx_entry.specs.Ring.{ring as ring_of};
ghost use Rattle.vhdx_entry.specs.Entry.{descriptor_count};
ghost use Rattle.vhdx_walk.specs.Cursor.{Placed, Onward};

use crate::run::{Run, Source};
use crate::{entry, run};
use vhdx_entry::ring::RingPos;
use vhdx_entry::{descriptor, header, ring};

// The entry at a position and those after it, `left` in all. Of that entry `index` is the next descriptor, and `data`
// counts the data descriptors before it.
#[derive(Clone, Copy)]
pub struct Cursor {
    pub pos: RingPos,
    pub left: u64,
    pub index: usize,
    pub data: usize,
}

// Three cases with names, as its users ask them: no nested `Option`s.
#[derive(Clone, Copy)]
pub enum Move {
    Done,
    // an entry is done
    Entry(Cursor),
    // the next descriptor, and the cursor behind it
    Descriptor(Run, Cursor),
}

impl Cursor {
    pub fn next(self, log: &[u8]) -> Move
        requires { Placed log.now self }
        ensures { Onward log.now self result }
    {
        if self.left == 0 {
            return Move::Done;
        }
        let count = header::descriptor_count(ring::sector(log, self.pos));
        if self.index < count {
            return self.descriptor(log, count);
        }
        Move::Entry(Cursor {
            pos: entry::next(log, self.pos),
            left: self.left - 1,
            index: 0,
            data: 0,
        })
    }

    // The next descriptor of the entry, which has `count` of them.
    fn descriptor(self, log: &[u8], count: usize) -> Move
        requires { Placed log.now self × (0 < self.left) × (count ≡ descriptor_count (ring_of log.now self.pos.at)) × (count < 4294967296) × (self.index < count) }
        ensures { Onward log.now self result }
    {
        let d = descriptor::at(log, self.pos, self.index);
        let next = Cursor {
            index: self.index + 1,
            ..self
        };
        if descriptor::is_data(d) {
            return Move::Descriptor(
                run::of_data(log, self.pos, count, self.index, self.data),
                Cursor {
                    data: self.data + 1,
                    ..next
                },
            );
        }
        Move::Descriptor(
            Run {
                offset: descriptor::file_offset(d),
                length: descriptor::zero_length(d),
                source: Source::Zeros,
            },
            next,
        )
    }
}
