// What the first MiB says: which header is current, and what it holds.
ghost use Rattle.std.specs.Prelude.{◌≡◌, ◌+◌, ◌≤◌, length};
ghost use Rattle.extent.specs.Extent.{mib};
ghost use Rattle.vhdx_header.specs.Current.{header_at, chosen_slot, current_slot, read_header, read_slot, read_first_mib};

use crate::{Header, fields};
use decision::Refusal;
use std::cmp::Ordering;

// Which of the two headers is the current one.
#[derive(Clone, Copy, Debug, PartialEq, Eq, Drop)]
pub enum Slot {
    First,
    Second,
}

const SLOT1: usize = 65536;

const SLOT2: usize = 131072;

pub fn read_first_mib(m: &[u8]) -> Result<Header, Refusal>
    requires { length m.now ≡ mib }
    ensures { result ≡ read_first_mib m.now }
{
    if field::bytes_are(m, 0, b"vhdxfile") {
        read_slot(current_slot(m), m)
    } else {
        Err(Refusal::NotVhdx)
    }
}

fn read_slot(slot: Option<Slot>, m: &[u8]) -> Result<Header, Refusal>
    requires { length m.now ≡ mib }
    ensures { result ≡ read_slot slot m.now }
{
    match slot.ok_or(Refusal::NoCurrentHeader)? {
        Slot::First => read_header(SLOT1, m),
        Slot::Second => read_header(SLOT2, m),
    }
}

fn read_header(at: usize, m: &[u8]) -> Result<Header, Refusal>
    requires { at + 4096 ≤ length m.now }
    ensures { result ≡ read_header at (header_at m.now at) }
{
    let h = header_at(m, at);
    if fields::keep_rules(h) {
        Ok(fields::contents(at as u64, h))
    } else {
        Err(Refusal::HeaderField)
    }
}

fn current_slot(m: &[u8]) -> Option<Slot>
    requires { length m.now ≡ mib }
    ensures { result ≡ current_slot m.now }
{
    let first = header_at(m, SLOT1);
    let second = header_at(m, SLOT2);
    chosen_slot(
        fields::is_valid(first),
        fields::is_valid(second),
        fields::sequence_number(first),
        fields::sequence_number(second),
    )
}

pub fn chosen_slot(first: bool, second: bool, number1: u64, number2: u64) -> Option<Slot>
    ensures { result ≡ chosen_slot first second number1 number2 }
{
    match (first, second) {
        (true, true) => match number1.cmp(&number2) {
            Ordering::Greater => Some(Slot::First),
            Ordering::Less => Some(Slot::Second),
            Ordering::Equal => None,
        },
        (true, false) => Some(Slot::First),
        (false, true) => Some(Slot::Second),
        (false, false) => None,
    }
}

fn header_at(m: &[u8], at: usize) -> &[u8; 4096]
    requires { at + 4096 ≤ length m.now }
    ensures { result.now ≡ header_at m.now at }
{
    field::array_at(m, at)
}
