// CRC-32C, the checksum of VHDX: a state that takes runs of bytes one after the other, the checksum of a run, and the
// checksum of a run that holds its own checksum.
#![tactic(auto)]

mod table;

ghost use Rattle.std.specs.Prelude.{◌≡◌, min};
ghost use Rattle.std.specs.Int.Bits.{bit_xor};
ghost use Rattle.crc32c.specs.Crc.{ones, byte, updates, crc, zeroed};

// The state before the first byte.
pub const START: u32 = 0xffff_ffff;

// The state after more bytes.
pub fn update(state: u32, bytes: &[u8]) -> u32
    ensures { result ≡ updates state bytes.now }
{
    bytes.iter().fold(state, |s, b| step(s, *b))
}

// The checksum of the bytes that led to a state.
pub fn finish(state: u32) -> u32
    ensures { result ≡ bit_xor state ones }
{
    state ^ 0xffff_ffff
}

pub fn checksum(bytes: &[u8]) -> u32
    ensures { result ≡ crc bytes.now }
{
    finish(update(START, bytes))
}

// The state after a first run of bytes, the four at an offset taken as zero.
pub fn start_zeroed(bytes: &[u8], at: usize) -> u32
    ensures { result ≡ updates ones (zeroed bytes.now at) }
{
    let zeros = [0u8; 4];
    let before = at.min(bytes.len());
    let after = at.saturating_add(4).min(bytes.len());
    let a = update(START, &bytes[..before]);
    let b = update(a, &zeros);
    update(b, &bytes[after..])
}

// The checksum with the four bytes at an offset taken as zero.
pub fn checksum_zeroed(bytes: &[u8], at: usize) -> u32
    ensures { result ≡ crc (zeroed bytes.now at) }
{
    finish(start_zeroed(bytes, at))
}

// A byte's step by one look-up.
fn step(state: u32, b: u8) -> u32
    ensures { result ≡ byte state b }
{
    let x = state ^ (b as u32);
    table::entries()[(x % 256) as usize] ^ (x / 256)
}
