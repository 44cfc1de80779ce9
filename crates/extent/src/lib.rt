// Ranges of bytes in a file, given by offset and length. No sum is formed that could wrap.
#![tactic(auto)]

ghost use Rattle.std.specs.Prelude.{◌≡◌, ◌+◌, ◌≤◌, ◌<◌, ◌^◌, length as length_of};
ghost use Rattle.extent.specs.Extent.{whole_mib, inside, shares, in_bounds, overlap as overlapping, apart, shifted as shifted_by, nowhere as nowhere_at, part as part_of, onward};

pub const MIB: u64 = 1048576;

// Where a part of a file lies: the log, a region, an item.
#[derive(Clone, Copy, Debug, Default, PartialEq, Eq, Drop)]
pub struct Extent {
    pub offset: u64,
    pub length: u64,
}

// The extent of what is not there.
pub fn nowhere() -> Extent
    ensures { result ≡ nowhere_at }
{
    Extent::default()
}

pub fn is_whole_mib(n: u64) -> bool
    ensures { result ≡ whole_mib n }
{
    n % MIB == 0
}

pub fn is_inside(offset: u64, length: u64, size: u64) -> bool
    ensures { result ≡ inside offset length size }
{
    offset <= size && length <= size - offset
}

// The bytes that an extent names: no copy, but the very part of the slice, which starts at the extent's offset.
pub fn part(bytes: &[u8], e: Extent) -> &[u8]
    requires { e.offset + e.length ≤ length_of bytes.now }
    ensures bytes { result.now ≡ part_of bytes.now e }
    ensures len { length_of result.now ≡ e.length }
    ensures place { result.ref_ptr ≡ onward bytes.entry.ref_ptr e.offset }
{
    let start = e.offset as usize;
    let end = start + e.length as usize;
    &bytes[start..end]
}

// The m bytes at a and the n bytes at b share a byte.
pub fn share_a_byte(a: u64, m: u64, b: u64, n: u64) -> bool
    ensures { result ≡ shares a m b n }
{
    if a < b {
        0 < n && b - a < m
    } else {
        0 < m && a - b < n
    }
}

// All of the extent lies in the first size bytes.
pub fn is_in_bounds(e: Extent, size: u64) -> bool
    ensures { result ≡ in_bounds e size }
{
    is_inside(e.offset, e.length, size)
}

// The two have a byte in common.
pub fn overlap(a: Extent, b: Extent) -> bool
    ensures { result ≡ overlapping a b }
{
    share_a_byte(a.offset, a.length, b.offset, b.length)
}

pub fn are_apart(a: Extent, b: Extent) -> bool
    ensures { result ≡ apart a b }
{
    !overlap(a, b)
}

// The extent, which is counted from the base, counted from where the base is.
pub fn shifted(base: u64, e: Extent) -> Extent
    requires { base + e.offset < 2 ^ 64 }
    ensures { result ≡ shifted_by base e }
{
    Extent {
        offset: base + e.offset,
        ..e
    }
}
