// Bytes stored in a buffer. What writes, writes through `zeros` and `bytes`.
ghost use Rattle.std.specs.Prelude.{◌≡◌, ◌+◌, ◌≤◌, length as length_of};
ghost use Rattle.vhdx_steps.specs.Buffer.{put, zeroed};

// An array to put the bytes of one write together in. What is in it does not matter.
pub fn blank() -> [u8; 4096]
    ensures { length_of result ≡ 4096 }
{
    [0u8; 4096]
}

// Zeros from an offset up to, not including, another; upward. A loop and no `fill`: its order shows here, and growth needs it.
pub fn zeros(buffer: &mut [u8], from: usize, to: usize)
    requires { (from ≤ to) × (to ≤ length_of buffer.old) }
    ensures { buffer.new ≡ zeroed buffer.old from to }
{
    for at in from..to {
        buffer[at] = 0;
    }
}

// Given bytes, from an offset on.
pub fn bytes(buffer: &mut [u8], offset: usize, given: &[u8])
    requires { offset + length_of given.now ≤ length_of buffer.old }
    ensures { buffer.new ≡ put buffer.old offset given.now }
{
    buffer[offset..offset + given.len()].copy_from_slice(given);
}
