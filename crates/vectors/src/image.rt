// An image in memory whose headers are set field by field.

// Its length is known by its type, so that no caller has to show it.
pub type Buffer = [u8; 4194304];

// Where a header stands.
#[derive(Clone, Copy)]
pub enum Slot {
    First = 65536,
    Second = 131072,
}

// A field of a header: its offset, and how many bytes it has.
#[derive(Clone, Copy)]
pub struct Field {
    pub at: usize,
    pub size: usize,
}

impl Field {
    pub const SIGNATURE: Field = Field { at: 0, size: 4 };

    pub const CHECKSUM: Field = Field { at: 4, size: 4 };

    pub const SEQUENCE_NUMBER: Field = Field { at: 8, size: 8 };

    pub const LOG_GUID_LOW: Field = Field { at: 48, size: 8 };

    pub const LOG_GUID_HIGH: Field = Field { at: 56, size: 8 };

    pub const LOG_VERSION: Field = Field { at: 64, size: 2 };

    pub const VERSION: Field = Field { at: 66, size: 2 };

    pub const LOG_LENGTH: Field = Field { at: 68, size: 4 };

    pub const LOG_OFFSET: Field = Field { at: 72, size: 8 };
}

// Stores the lowest n bytes of a number at an offset, as far as they fit.
pub fn put(b: &mut [u8], at: usize, n: usize, value: u64) {
    let bytes = value.to_le_bytes();
    if let Some(place) = b.get_mut(at..) {
        let n = n.min(bytes.len()).min(place.len());
        place[..n].copy_from_slice(&bytes[..n]);
    }
}

// Sets one field of the header in a slot, and its checksum anew.
pub fn set(b: &mut Buffer, slot: Slot, field: Field, value: u64) {
    let start = slot as usize;
    let header = &mut b[start..start + 4096];
    put(header, field.at, field.size, value);
    let sum = crc32c::checksum_zeroed(header, 4);
    put(header, Field::CHECKSUM.at, Field::CHECKSUM.size, sum as u64);
}

// A valid header with a sequence number and a log of 1 MiB at 1 MiB.
pub fn header(b: &mut Buffer, slot: Slot, number: u64) {
    set(b, slot, Field::SIGNATURE, 0x6461_6568);
    set(b, slot, Field::SEQUENCE_NUMBER, number);
    set(b, slot, Field::LOG_GUID_LOW, 0x1716_1514_1312_1110);
    set(b, slot, Field::LOG_GUID_HIGH, 0x1f1e_1d1c_1b1a_1918);
    set(b, slot, Field::LOG_VERSION, 0);
    set(b, slot, Field::VERSION, 1);
    set(b, slot, Field::LOG_LENGTH, 1048576);
    set(b, slot, Field::LOG_OFFSET, 1048576);
}

// Makes the header in a slot invalid.
pub fn spoil(b: &mut Buffer, slot: Slot) {
    put(b, slot as usize, 4, 0);
}
