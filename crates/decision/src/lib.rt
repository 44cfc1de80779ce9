// Why a call refuses, with document 01's number. The rest of this crate are definitions and laws that the other crates'
// specifications share.
#![tactic(auto)]

ghost use Rattle.std.specs.Prelude.{◌≡◌};
ghost use Rattle.decision.specs.Refusal.{number};

// Document 01, "When the gate says no", in its order; 23 is change request Q-6's.
#[derive(Clone, Copy, Debug, PartialEq, Eq, Drop)]
pub enum Refusal {
    // 1: the length is above the buffer's, or below 1 MiB
    ImageLength = 1,
    // 2
    NotVhdx = 2,
    // 3
    NoCurrentHeader = 3,
    // 4: a field of the current header breaks its rule
    HeaderField = 4,
    // 5: a log is named, and no log sequence is in it
    NoLogSequence = 5,
    // 6: the file is shorter than its log says that it was
    ShorterThanFlushed = 6,
    // 7: a sector to be written lies in the first MiB or in the log
    ForbiddenSector = 7,
    // 8: the final length is above the buffer's or above 128 TiB
    FinalLength = 8,
    // 9
    NoRegionTable = 9,
    // 10: a region entry breaks its rule
    RegionEntry = 10,
    // 11: there is no BAT region or no metadata region
    RegionMissing = 11,
    // 12: the metadata region is empty, or its table or an entry breaks its rule
    MetadataEntry = 12,
    // 13: a needed metadata item is missing or has a wrong length
    ItemMissing = 13,
    // 14: an item's value is out of range
    ItemValue = 14,
    // 15
    BatTooShort = 15,
    // 16: the facts do not fit the image, or the length is above the buffer's
    FactsDoNotFit = 16,
    // 17
    NoSuchSector = 17,
    // 18: the block's state is reserved, or it is partially present without a parent
    BlockState = 18,
    // 19: the block does not lie inside the image
    BlockOutside = 19,
    // 20: the block's bitmap does not
    BitmapOutside = 20,
    // 21
    NoSuchStep = 21,
    // 22: the step's sector does not lie inside the image
    StepOutside = 22,
    // 23: the current header's sequence number is at its greatest value
    SequenceNumberSpent = 23,
}

impl Refusal {
    // The number by which C and the documents name it.
    pub fn number(self) -> u64
        ensures { result ≡ number self }
    {
        self as u64
    }
}
