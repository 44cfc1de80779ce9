// The current header in pieces: the identifier's 8 bytes, then each header's 4,096.
#![tactic(auto)]

ghost use Rattle.std.specs.Prelude.{◌≡◌, ◌+◌, ◌≤◌, length as length_of};
ghost use Rattle.vhdx_pieces_header.specs.Finding.{offset_of, size_of, started, identified as identified_by, step_of, candidate_of, judged as judged_of, chosen as chosen_of};

use decision::Refusal;
use std::ops::ControlFlow;
use vhdx_header::choice::Slot;
use vhdx_header::{Header, choice, fields};

// Where the two headers stand in the file.
const FIRST: u64 = 65536;

const SECOND: u64 = 131072;

// A header that was read: whether it is valid, whether its fields keep the rules that they alone decide, and what it holds.
#[derive(Clone, Copy, Debug, PartialEq, Eq, Drop)]
pub struct Candidate {
    pub valid: bool,
    pub rules: bool,
    pub header: Header,
}

// What is wanted next. Of the first header is kept what it says.
#[derive(Clone, Copy, Debug, PartialEq, Eq, Drop)]
pub enum Stage {
    Identifier,
    First,
    Second(Candidate),
}

// More bytes are wanted, or it has ended with the current header or why there is none.
pub type Step = ControlFlow<Result<Header, Refusal>, Stage>;

// Of a file of this length, in this capacity.
pub fn start(length: u64, capacity: u64) -> Step
    ensures { result ≡ started length capacity }
{
    if length <= capacity && extent::MIB <= length {
        ControlFlow::Continue(Stage::Identifier)
    } else {
        ControlFlow::Break(Err(Refusal::ImageLength))
    }
}

// Where in the file the wanted bytes stand.
pub fn offset(stage: Stage) -> u64
    ensures { (result ≡ offset_of stage) × (result + size_of stage ≤ 1048576) }
{
    match stage {
        Stage::Identifier => 0,
        Stage::First => FIRST,
        Stage::Second(_) => SECOND,
    }
}

// How many they are.
pub fn size(stage: Stage) -> u64
    ensures { result ≡ size_of stage }
{
    match stage {
        Stage::Identifier => 8,
        Stage::First => 4096,
        Stage::Second(_) => 4096,
    }
}

// Fed them.
pub fn next(stage: Stage, length: u64, piece: &[u8]) -> Step
    requires { length_of piece.now ≡ size_of stage }
    ensures { result ≡ step_of length stage piece.now }
{
    match stage {
        Stage::Identifier => identified(piece),
        Stage::First => {
            let first = read_one(FIRST, field::array_at(piece, 0));
            ControlFlow::Continue(Stage::Second(first))
        }
        Stage::Second(first) => {
            let second = read_one(SECOND, field::array_at(piece, 0));
            ControlFlow::Break(vhdx_header::within_image(length, chosen(first, second)))
        }
    }
}

fn identified(piece: &[u8]) -> Step
    requires { length_of piece.now ≡ 8 }
    ensures { result ≡ identified_by piece.now }
{
    if field::bytes_are(piece, 0, b"vhdxfile") {
        ControlFlow::Continue(Stage::First)
    } else {
        ControlFlow::Break(Err(Refusal::NotVhdx))
    }
}

fn read_one(at: u64, h: &[u8; 4096]) -> Candidate
    ensures { result ≡ candidate_of at h.now }
{
    Candidate {
        valid: fields::is_valid(h),
        rules: fields::keep_rules(h),
        header: fields::contents(at, h),
    }
}

// What the current one of the two says.
fn chosen(first: Candidate, second: Candidate) -> Result<Header, Refusal>
    ensures { result ≡ chosen_of first second }
{
    let slot = choice::chosen_slot(
        first.valid,
        second.valid,
        first.header.sequence_number,
        second.header.sequence_number,
    );
    match slot.ok_or(Refusal::NoCurrentHeader)? {
        Slot::First => judged(first),
        Slot::Second => judged(second),
    }
}

fn judged(c: Candidate) -> Result<Header, Refusal>
    ensures { result ≡ judged_of c }
{
    if c.rules {
        Ok(c.header)
    } else {
        Err(Refusal::HeaderField)
    }
}
