// A BAT entry: its state, and what it stores where.
ghost use Rattle.std.specs.Prelude.{◌≡◌};
ghost use Rattle.vhdx_map.specs.Entry.{state, offset_of, meaning, stored_rule, bitmap_rule};

// What a payload block's entry says of its sectors.
#[derive(Clone, Copy, Debug, PartialEq, Eq, Drop)]
pub enum Meaning {
    ReadsZero,
    ReadsParent,
    // the file holds all its sectors
    FullyPresent,
    // the bitmap tells which of its sectors the file holds; the others are the parent's
    PartiallyPresent,
    // a reserved state, or a partially present block of a disk without a parent
    Invalid,
}

#[tactic(auto, unfolding(crate::specs::Entry::meaning))]
pub fn meaning_of(entry: u64, has_parent: bool) -> Meaning
    ensures { result ≡ meaning has_parent (state entry) }
{
    match entry % 8 {
        0 if has_parent => Meaning::ReadsParent,
        0 => Meaning::ReadsZero,
        1..=3 => Meaning::ReadsZero,
        4 | 5 => Meaning::Invalid,
        6 => Meaning::FullyPresent,
        7 if has_parent => Meaning::PartiallyPresent,
        // 7 without a parent
        _ => Meaning::Invalid,
    }
}

// The offset in the file. An entry counts in MiB, above its low 20 bits.
pub fn offset(entry: u64) -> u64
    ensures { result ≡ offset_of entry }
{
    entry / extent::MIB * extent::MIB
}

// What the entry stores, size bytes, lies behind the first MiB and inside an image of this length.
#[tactic(auto, unfolding(crate::specs::Entry::stored_rule))]
pub fn is_stored(entry: u64, size: u64, length: u64) -> bool
    ensures { result ≡ stored_rule length size entry }
{
    let start = offset(entry);
    extent::MIB <= start && extent::is_inside(start, size, length)
}

// A bitmap entry names a bitmap in an image of this length.
#[tactic(auto, unfolding(crate::specs::Entry::bitmap_rule))]
pub fn is_bitmap(entry: u64, length: u64) -> bool
    ensures { result ≡ bitmap_rule length entry }
{
    entry % 8 == 6 && is_stored(entry, extent::MIB, length)
}
