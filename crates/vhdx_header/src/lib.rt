// The current header of a VHDX file, which says where its log is, or the refusal: document 01's 1 to 4.
// Its modules: `fields`, one header by itself; `choice`, which of the two headers is current.
#![tactic(auto)]

pub mod choice;
pub mod fields;

ghost use Rattle.std.specs.Prelude.{◌≡◌};
ghost use Rattle.vhdx_header.specs.Current.{current_header, within_image};

use decision::Refusal;

#[derive(Clone, Copy, Debug, PartialEq, Eq, Drop)]
pub struct Header {
    // where it stands: 65,536 or 131,072
    pub slot: u64,
    pub sequence_number: u64,
    pub log_guid: field::Guid,
    pub log_offset: u64,
    pub log_length: u64,
}

// Of the image that is the first length bytes of the buffer.
pub fn read(buffer: &[u8], length: u64) -> Result<Header, Refusal>
    ensures { result ≡ current_header buffer.now length }
{
    if (buffer.len() as u64) < length || length < extent::MIB {
        return Err(Refusal::ImageLength);
    }
    within_image(length, choice::read_first_mib(&buffer[..1048576]))
}

// What is read of the first MiB, judged by the length too.
pub fn within_image(length: u64, read: Result<Header, Refusal>) -> Result<Header, Refusal>
    ensures { result ≡ within_image length read }
{
    let header = read?;
    if extent::is_inside(header.log_offset, header.log_length, length) {
        Ok(header)
    } else {
        Err(Refusal::HeaderField)
    }
}
