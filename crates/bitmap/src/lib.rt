// One bit of a bitmap, which is a run of bytes.
#![tactic(auto)]

ghost use Rattle.std.specs.Prelude.{◌≡◌, ◌<◌, length};
ghost use Rattle.bitmap.specs.Bitmap.{bit_of, byte_of, lowest_first, bit as bit_in};

// Bit number i, lowest bit of each byte first.
pub fn bit(bytes: &[u8], i: usize) -> bool
    requires { byte_of i < length bytes.now }
    ensures { result ≡ bit_in lowest_first bytes.now i }
{
    bit_of(field::u8_at(bytes, i / 8), lowest_first(i))
}

// Which bit of its byte is number i. The one place that knows the order.
fn lowest_first(i: usize) -> u8
    ensures value { result ≡ lowest_first i }
    ensures upper_bound { result < 8 }
{
    (i % 8) as u8
}

fn bit_of(byte: u8, k: u8) -> bool
    requires { k < 8 }
    ensures { result ≡ bit_of byte k }
{
    (byte >> k) % 2 == 1
}
