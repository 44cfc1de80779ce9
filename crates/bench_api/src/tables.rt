// The facts of an image, in figures.
ghost use Rattle.std.specs.Prelude.{◌≡◌};
ghost use Rattle.decision.specs.Refusal.{refusal_of, outcome};
ghost use Rattle.vhdx_slots.specs.Slots.{facts_in};
ghost use Rattle.vhdx_tables.specs.Tables.{facts_told};
ghost use Rattle.bench_api.specs.Tables.{reading_of};

use decision::Refusal;
use extent::Extent;
use vhdx_facts::Facts;

fn read(image: &[u8], log: Extent) -> Result<Facts, Refusal>
    ensures { outcome result ≡ reading_of image.now log }
{
    if image.len() < 1048576 {
        return Err(Refusal::ImageLength);
    }
    vhdx_tables::read(image, log)
}

// The refusal's number or 0, and in slots 3 to 15 of the answer the facts.
#[unsafe(no_mangle)]
pub extern "C" fn shrunvaki_bench_tables(
    image: &[u8],
    log_offset: u64,
    log_length: u64,
    answer: &mut [u64; 32],
) -> u64
    ensures value { result ≡ refusal_of (reading_of image.now (record { offset = log_offset; length = log_length })) }
    ensures answer_after { answer.new ≡ facts_in (facts_told (reading_of image.now (record { offset = log_offset; length = log_length }))) answer.old }
{
    let facts = read(
        image,
        Extent {
            offset: log_offset,
            length: log_length,
        },
    );
    vhdx_slots::write(facts.unwrap_or(vhdx_facts::none()), answer);
    match facts {
        Ok(_) => 0,
        Err(refusal) => refusal.number(),
    }
}
