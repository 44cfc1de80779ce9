// What this project's own tests and benchmarks link: the checksum, and one sector of the plan of a log's work; in `tables` the
// facts of an image. Not for other programs.
#![tactic(auto)]

pub mod tables;

ghost use Rattle.std.specs.Prelude.{◌≡◌};
ghost use Rattle.std.proofs.Math.ListN.{get_elem?};
ghost use Rattle.crc32c.specs.Crc.{crc};
ghost use Rattle.vhdx_log.specs.Work.{sectors_planned};
ghost use Rattle.vhdx_log.specs.Plan.{plan};
ghost use Rattle.vhdx_log.specs.Answers.{log_of};
ghost use Rattle.bench_api.specs.Sectors.{Answered};

use vhdx_walk::run::Source;

#[unsafe(no_mangle)]
pub extern "C" fn shrunvaki_bench_crc32c(bytes: &[u8]) -> u32
    ensures { result ≡ crc bytes.now }
{
    crc32c::checksum(bytes)
}

// Sector number k of the plan: 0 without one; 1 for zeros, with its offset; 2 for data, with its offset and the offsets in
// the log of its descriptor and its data sector.
#[unsafe(no_mangle)]
pub extern "C" fn shrunvaki_bench_sector(
    buffer: &[u8],
    length: u64,
    k: u64,
    answer: &mut [u64; 3],
) -> u64
    ensures { Answered (log_of buffer.now length) (get_elem? (sectors_planned (plan buffer.now length)) k) result answer.old answer.new }
{
    let Ok(work) = vhdx_log::plan(buffer, length) else {
        return 0;
    };
    let walk = vhdx_walk::from(work.cursor);
    let Some(found) = walk.nth(vhdx_log::log(buffer, length), k) else {
        return 0;
    };
    answer[0] = found.offset;
    match found.source {
        Source::Zeros => 1,
        Source::Data { descriptor, sector } => {
            answer[1] = descriptor as u64;
            answer[2] = sector as u64;
            2
        }
    }
}
