// The header that closing a log writes, and its write (change request Q-6).
#![tactic(auto)]

ghost use Rattle.std.specs.Prelude.{◌≡◌, ◌+◌, ◌<◌, length as length_of};
ghost use Rattle.vhdx_header.specs.Header.{sequence_number_of};
ghost use Rattle.vhdx_header.specs.Current.{header_at, first_mib, other_slot};
ghost use Rattle.vhdx_rewrite.specs.Rewrite.{greatest, rewritten, closed_header};
ghost use Rattle.vhdx_rewrite.specs.Writing.{Closable, header_written};

use vhdx_replay::store;

// The next sequence number, the given identifier, no log; all else is the current header's.
fn rewrite(h: &[u8; 4096], identifier: &[u8; 16]) -> [u8; 4096]
    requires { sequence_number_of h.now < greatest }
    ensures value { result ≡ rewritten h.now identifier.now }
    ensures len { length_of result ≡ 4096 }
{
    let mut out = *h;
    let next = (vhdx_header::fields::sequence_number(h) + 1).to_le_bytes();
    store::bytes(&mut out, 8, &next);
    store::bytes(&mut out, 16, identifier);
    store::zeros(&mut out, 48, 64);
    out
}

// With its checksum made anew.
fn closed(h: &[u8; 4096], identifier: &[u8; 16]) -> [u8; 4096]
    requires { sequence_number_of h.now < greatest }
    ensures value { result ≡ closed_header h.now identifier.now }
    ensures len { length_of result ≡ 4096 }
{
    let mut out = rewrite(h, identifier);
    let sum = crc32c::checksum_zeroed(&out, 4).to_le_bytes();
    store::bytes(&mut out, 4, &sum);
    out
}

// Where the header stands that is not the one at an offset.
fn other_slot(slot: u64) -> u64
    ensures { result ≡ other_slot slot }
{
    if slot == 65536 { 131072 } else { 65536 }
}

// The write of the header: over the one that does not stand at this offset, made of the one that does. It stores inside that slot
// alone.
pub fn write(buffer: &mut [u8], slot: u64, identifier: &[u8; 16])
    requires { Closable buffer.old slot }
    ensures buffer_after { buffer.new ≡ header_written buffer.old slot identifier.now }
    ensures header_len { length_of (closed_header (header_at (first_mib buffer.old) slot) identifier.now) ≡ 4096 }
{
    let out = closed(field::array_at(buffer, slot as usize), identifier);
    store::bytes(buffer, other_slot(slot) as usize, &out);
}
