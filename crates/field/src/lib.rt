// Fields of a slice of bytes: little-endian numbers of one, two, four and eight bytes, identifiers of 16 bytes, and a
// run of bytes compared with a key.
#![tactic(auto)]

ghost use Rattle.std.specs.Prelude.{◌≡◌, ◌+◌, ◌≤◌, nat_eq, length, take, drop};
ghost use Rattle.field.specs.Fields.{field, guid_at, number, starts};

// An identifier of 16 bytes, as it is stored: its first and its last eight bytes, each a little-endian number.
#[derive(Clone, Copy, Debug, PartialEq, Eq, Drop)]
pub struct Guid {
    pub low: u64,
    pub high: u64,
}

impl Guid {
    // No identifier, as in a file without a log.
    pub const ZERO: Guid = Guid { low: 0, high: 0 };
}

pub fn u8_at(s: &[u8], at: usize) -> u8
    requires { at + 1 ≤ length s.now }
    ensures { result ≡ field s.now at 1 }
{
    s[at]
}

pub fn u16_at(s: &[u8], at: usize) -> u16
    requires { at + 2 ≤ length s.now }
    ensures { result ≡ field s.now at 2 }
{
    (u8_at(s, at) as u16) + (u8_at(s, at + 1) as u16) * 256
}

pub fn u32_at(s: &[u8], at: usize) -> u32
    requires { at + 4 ≤ length s.now }
    ensures { result ≡ field s.now at 4 }
{
    (u16_at(s, at) as u32) + (u16_at(s, at + 2) as u32) * 65536
}

pub fn u64_at(s: &[u8], at: usize) -> u64
    requires { at + 8 ≤ length s.now }
    ensures { result ≡ field s.now at 8 }
{
    (u32_at(s, at) as u64) + (u32_at(s, at + 4) as u64) * 4294967296
}

pub fn guid_at(s: &[u8], at: usize) -> Guid
    requires { at + 16 ≤ length s.now }
    ensures { result ≡ guid_at s.now at }
{
    Guid {
        low: u64_at(s, at),
        high: u64_at(s, at + 8),
    }
}

// The 16 bytes at an offset are the identifier.
pub fn guid_is(s: &[u8], at: usize, guid: Guid) -> bool
    requires { at + 16 ≤ length s.now }
    ensures { result ≡ nat_eq (field s.now at 16) (number guid) }
{
    guid_at(s, at) == guid
}

// The `N` bytes at an offset.
pub fn array_at<const N: usize>(s: &[u8], at: usize) -> &[u8; N]
    requires { at + N ≤ length s.now }
    ensures { result.now ≡ take N (drop at s.now) }
{
    s[at..].first_chunk().unwrap()
}

// The bytes at an offset are the key.
pub fn bytes_are(s: &[u8], at: usize, key: &[u8]) -> bool
    requires { at + length key.now ≤ length s.now }
    ensures { result ≡ starts (drop at s.now) key.now }
{
    s[at..].starts_with(key)
}
