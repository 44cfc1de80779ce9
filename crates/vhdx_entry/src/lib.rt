// A log entry: whether a valid one starts at a position of the log's ring, and what it says.
// Its modules: `ring`, positions and sectors of the ring; `header` and `descriptor`, the parts of an entry, each given as its
// bytes; `body`, an entry's descriptors, data sectors and checksum, which may run past the ring's end.
#![tactic(auto)]

pub mod body;
pub mod descriptor;
pub mod header;
pub mod ring;

ghost use Rattle.std.specs.Prelude.{◌≡◌};
ghost use Rattle.vhdx_entry.specs.Ring.{On};
ghost use Rattle.vhdx_entry.specs.Entry.{entry_at};

use ring::RingPos;

// What log sequences are made by: an entry's length and its Tail, in sectors, and its sequence number.
#[derive(Clone, Copy, Debug, PartialEq, Eq, Drop)]
pub struct Entry {
    pub size: usize,
    pub number: u64,
    pub tail: usize,
}

// The valid entry that starts at a position. Structure first, sector by sector; the checksum last.
pub fn read(log: &[u8], pos: RingPos, guid: field::Guid) -> Option<Entry>
    requires { On log.now pos }
    ensures { result ≡ entry_at log.now guid pos.at }
{
    let h = ring::sector(log, pos);
    if !header::keeps_rules(h, guid, log.len()) {
        return None;
    }
    let number = header::sequence_number(h);
    let count = header::descriptor_count(h);
    let size = body::size(log, pos, number, count)?;
    body::ends_well(log, pos, number, count, size).then_some(Entry {
        size,
        number,
        tail: header::tail(h),
    })
}
