// The identifiers of the regions that MS-VHDX defines, as they are stored: the first three groups reversed.
ghost use Rattle.std.specs.Prelude.{◌≡◌};
ghost use Rattle.vhdx_region.specs.Region.{known_regions};

// Rows of the table.
pub const BAT: usize = 0;

pub const METADATA: usize = 1;

// Lent from where it is: each of up to 2,047 entries is looked up in it.
static REGIONS: [[u8; 16]; 2] = [
    // 2DC27766-F623-4200-9D64-115E9BFD4A08
    *b"\x66\x77\xc2\x2d\x23\xf6\x00\x42\x9d\x64\x11\x5e\x9b\xfd\x4a\x08",
    // 8B7CA206-4790-4B9A-B8FE-575F050F886E
    *b"\x06\xa2\x7c\x8b\x90\x47\x9a\x4b\xb8\xfe\x57\x5f\x05\x0f\x88\x6e",
];

pub fn regions() -> &'static [[u8; 16]; 2]
    ensures { result.now ≡ known_regions }
{
    &REGIONS
}
