// The write of one sector of 4,096 bytes. It stores inside the sector alone, so that a torn write leaves all else as it was.
ghost use Rattle.std.specs.Prelude.{◌≡◌, ◌+◌, ◌≤◌, length as length_of, take, drop};
ghost use Rattle.extent.specs.Extent.{part as part_of};
ghost use Rattle.vhdx_walk.specs.Bytes.{sector_bytes};
ghost use Rattle.vhdx_walk.specs.Cursor.{bytes_of, Held};
ghost use Rattle.vhdx_steps.specs.Buffer.{put};

use crate::store;
use extent::Extent;
use vhdx_walk::SectorWrite;
use vhdx_walk::run::Source;

// The bytes of a data sector, whose descriptor and stored sector are at these offsets of the log.
fn data(log: &[u8], descriptor: usize, sector: usize) -> [u8; 4096]
    requires { (descriptor + 32 ≤ length_of log.now) × (sector + 4096 ≤ length_of log.now) }
    ensures { result ≡ sector_bytes (take 32 (drop descriptor log.now)) (take 4096 (drop sector log.now)) }
{
    let mut out = store::blank();
    store::bytes(&mut out, 0, &log[sector..sector + 4096]);
    store::bytes(&mut out, 0, &log[descriptor + 8..descriptor + 16]);
    store::bytes(&mut out, 4092, &log[descriptor + 4..descriptor + 8]);
    out
}

// Zeros, or bytes that the log, which is here, holds.
pub fn write(buffer: &mut [u8], log: Extent, s: SectorWrite)
    requires { (log.offset + log.length ≤ length_of buffer.old) × (s.offset + 4096 ≤ length_of buffer.old) × Held (part_of buffer.old log) s.source }
    ensures { buffer.new ≡ put buffer.old s.offset (bytes_of (part_of buffer.old log) s.source) }
{
    let at = s.offset as usize;
    match s.source {
        Source::Zeros => store::zeros(buffer, at, at + 4096),
        Source::Data { descriptor, sector } => {
            let out = data(extent::part(buffer, log), descriptor, sector);
            store::bytes(buffer, at, &out);
        }
    }
}
