// An entry's header, given as the sector that it starts.
ghost use Rattle.std.specs.Prelude.{◌≡◌, ◌/◌, ◌<◌, length};
ghost use Rattle.vhdx_entry.specs.Entry.{signature_rule, checksum as checksum_of, entry_length, sequence_number_of, descriptor_count, tail as tail_of, flushed_file_offset, last_file_offset, header_rule};

// "loge" as a little-endian number.
const LOGE: u32 = 0x65676f6c;

// The sector begins "loge".
pub fn is_marked(h: &[u8; 4096]) -> bool
    ensures { result ≡ signature_rule h.now }
{
    field::u32_at(h, 0) == LOGE
}

pub fn checksum(h: &[u8; 4096]) -> u32
    ensures { result ≡ checksum_of h.now }
{
    field::u32_at(h, 4)
}

pub fn entry_length(h: &[u8; 4096]) -> usize
    ensures { result ≡ entry_length h.now }
{
    field::u32_at(h, 8) as usize
}

// The Tail, in sectors.
pub fn tail(h: &[u8; 4096]) -> usize
    ensures { result ≡ tail_of h.now / 4096 }
{
    (field::u32_at(h, 12) as usize) / 4096
}

pub fn sequence_number(h: &[u8; 4096]) -> u64
    ensures { result ≡ sequence_number_of h.now }
{
    field::u64_at(h, 16)
}

pub fn descriptor_count(h: &[u8; 4096]) -> usize
    ensures value { result ≡ descriptor_count h.now }
    ensures upper_bound { result < 4294967296 }
{
    field::u32_at(h, 24) as usize
}

pub fn flushed_file_offset(h: &[u8; 4096]) -> u64
    ensures { result ≡ flushed_file_offset h.now }
{
    field::u64_at(h, 48)
}

pub fn last_file_offset(h: &[u8; 4096]) -> u64
    ensures { result ≡ last_file_offset h.now }
{
    field::u64_at(h, 56)
}

// Of an entry in a log of this length, of the image whose log has this identifier.
pub fn keeps_rules(h: &[u8; 4096], guid: field::Guid, log_length: usize) -> bool
    ensures { result ≡ header_rule guid log_length h.now }
{
    let tail = field::u32_at(h, 12) as usize;
    // `&`, since `&&` is a branch at each test: its proof was tried, and is long
    is_marked(h)
        & (field::guid_is(h, 32, guid)
            & (((tail % 4096 == 0) & (tail < log_length)) & (1 <= sequence_number(h))))
}
