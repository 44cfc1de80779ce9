// The facts as numbers in an array of 32, as programs in other languages hold them: slots 3 to 15.
#![tactic(auto)]

ghost use Rattle.std.specs.Prelude.{◌≡◌};
ghost use Rattle.vhdx_slots.specs.Slots.{bit, facts_in, facts_from};

use extent::Extent;
use field::Guid;
use vhdx_facts::Facts;

pub fn bit_of(b: bool) -> u64
    ensures { result ≡ bit b }
{
    u64::from(b)
}

pub fn write(facts: Facts, slots: &mut [u64; 32])
    ensures { slots.new ≡ facts_in facts slots.old }
{
    slots[3] = facts.logical_sector_size;
    slots[4] = facts.physical_sector_size;
    slots[5] = facts.block_size;
    slots[6] = facts.disk_size;
    slots[7] = bit_of(facts.has_parent);
    slots[8] = facts.disk_id.low;
    slots[9] = facts.disk_id.high;
    slots[10] = facts.bat.offset;
    slots[11] = facts.bat.length;
    slots[12] = facts.metadata.offset;
    slots[13] = facts.metadata.length;
    slots[14] = facts.locator.offset;
    slots[15] = facts.locator.length;
}

pub fn read(slots: &[u64; 32]) -> Facts
    ensures { result ≡ facts_from slots.now }
{
    Facts {
        logical_sector_size: slots[3],
        physical_sector_size: slots[4],
        block_size: slots[5],
        disk_size: slots[6],
        has_parent: slots[7] != 0,
        disk_id: Guid {
            low: slots[8],
            high: slots[9],
        },
        bat: Extent {
            offset: slots[10],
            length: slots[11],
        },
        metadata: Extent {
            offset: slots[12],
            length: slots[13],
        },
        locator: Extent {
            offset: slots[14],
            length: slots[15],
        },
    }
}
