// One header, given as its 4,096 bytes.
ghost use Rattle.std.specs.Prelude.{◌≡◌};
ghost use Rattle.vhdx_header.specs.Header.{sequence_number_of, valid_header, field_rules, contents as contents_of};

use crate::Header;

const CHECKSUM: usize = 4;

const SEQUENCE_NUMBER: usize = 8;

const LOG_GUID: usize = 48;

const LOG_VERSION: usize = 64;

const VERSION: usize = 66;

const LOG_LENGTH: usize = 68;

const LOG_OFFSET: usize = 72;

// 64 MiB, a house limit.
const LOG_LIMIT: u64 = 67108864;

#[tactic(auto, unfolding(crate::specs::Header::valid_header))]
pub fn is_valid(h: &[u8; 4096]) -> bool
    ensures { result ≡ valid_header h.now }
{
    field::bytes_are(h, 0, b"head")
        && field::u32_at(h, CHECKSUM) == crc32c::checksum_zeroed(h, CHECKSUM)
}

pub fn sequence_number(h: &[u8; 4096]) -> u64
    ensures { result ≡ sequence_number_of h.now }
{
    field::u64_at(h, SEQUENCE_NUMBER)
}

// Whether the fields keep the rules that they alone decide.
#[tactic(auto, using(field::proofs::Laws::number_at), unfolding(crate::specs::Header::field_rules))]
pub fn keep_rules(h: &[u8; 4096]) -> bool
    ensures { result ≡ field_rules h.now }
{
    let no_log = field::guid_is(h, LOG_GUID, field::Guid::ZERO);
    let log_version = field::u16_at(h, LOG_VERSION);
    let log_offset = field::u64_at(h, LOG_OFFSET);
    let log_length = field::u32_at(h, LOG_LENGTH) as u64;
    field::u16_at(h, VERSION) == 1
        && (no_log || log_version == 0)
        && extent::is_whole_mib(log_offset)
        && extent::is_whole_mib(log_length)
        && extent::MIB <= log_offset
        && log_length <= LOG_LIMIT
}

pub fn contents(slot: u64, h: &[u8; 4096]) -> Header
    ensures { result ≡ contents_of slot h.now }
{
    Header {
        slot,
        sequence_number: sequence_number(h),
        log_guid: field::guid_at(h, LOG_GUID),
        log_offset: field::u64_at(h, LOG_OFFSET),
        log_length: field::u32_at(h, LOG_LENGTH) as u64,
    }
}
