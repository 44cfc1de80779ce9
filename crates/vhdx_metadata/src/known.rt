// The six known system identifiers as they are stored, the first three groups reversed, and the lengths of their items.
ghost use Rattle.std.specs.Prelude.{◌≡◌, ◌<◌, get_or, None};
ghost use Rattle.vhdx_metadata.specs.Known.{known_items, known_lengths};

// Rows of the table.
pub const FILE_PARAMETERS: usize = 0;

pub const DISK_SIZE: usize = 1;

pub const LOGICAL_SECTOR_SIZE: usize = 2;

pub const PHYSICAL_SECTOR_SIZE: usize = 3;

pub const DISK_IDENTIFIER: usize = 4;

pub const PARENT_LOCATOR: usize = 5;

static IDENTIFIERS: [[u8; 16]; 6] = [
    // file parameters: CAA16737-FA36-4D43-B3B6-33F0AA44E76B
    *b"\x37\x67\xa1\xca\x36\xfa\x43\x4d\xb3\xb6\x33\xf0\xaa\x44\xe7\x6b",
    // disk size: 2FA54224-CD1B-4876-B211-5DBED83BF4B8
    *b"\x24\x42\xa5\x2f\x1b\xcd\x76\x48\xb2\x11\x5d\xbe\xd8\x3b\xf4\xb8",
    // logical sector size: 8141BF1D-A96F-4709-BA47-F233A8FAAB5F
    *b"\x1d\xbf\x41\x81\x6f\xa9\x09\x47\xba\x47\xf2\x33\xa8\xfa\xab\x5f",
    // physical sector size: CDA348C7-445D-4471-9CC9-E9885251C556
    *b"\xc7\x48\xa3\xcd\x5d\x44\x71\x44\x9c\xc9\xe9\x88\x52\x51\xc5\x56",
    // disk identifier: BECA12AB-B2E6-4523-93EF-C309E000C746
    *b"\xab\x12\xca\xbe\xe6\xb2\x23\x45\x93\xef\xc3\x09\xe0\x00\xc7\x46",
    // parent locator: A8D35F2D-B30B-454D-ABF7-D3D84834AB0C
    *b"\x2d\x5f\xd3\xa8\x0b\xb3\x4d\x45\xab\xf7\xd3\xd8\x48\x34\xab\x0c",
];

// None where any length will do.
const LENGTHS: [Option<u64>; 6] = [Some(8), Some(8), Some(4), Some(4), Some(16), None];

pub fn identifiers() -> &'static [[u8; 16]; 6]
    ensures { result.now ≡ known_items }
{
    &IDENTIFIERS
}

// The length of the item in this row, if it has one of its own.
pub fn length(row: usize) -> Option<u64>
    requires { row < 6 }
    ensures { result ≡ get_or known_lengths row None }
{
    LENGTHS[row]
}
