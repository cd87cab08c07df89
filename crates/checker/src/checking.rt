// Whether a schedule keeps the dependences of its block.
ghost use Rattle.blocks.specs.Entries.{WellPlaced};
ghost use Rattle.blocks.specs.Machine.{slots_of};
ghost use Rattle.blocks.specs.Whole.{state_of};
ghost use Rattle.checker.specs.Checks.{Judged, Checked};

use crate::schedule::Schedule;
use crate::seeing::all_placed;
use crate::verdict::Verdict;
use blocks::{Blocks, Description, Entry};
use operations::Refusal;

fn judge(description: &Description, entries: &[Entry]) -> Result<Verdict, Refusal>
    requires { WellPlaced (slots_of description.now.slots) entries.now }
    ensures { Judged description.now entries.now result }
{
    let all = all_placed(description, entries)?;
    let schedule = Schedule {
        placed: &all[..entries.len()],
        last: description.slots.count - 1,
    };
    let found = schedule.first_broken();
    Ok(found.map_or(Verdict::Kept, Verdict::Violated))
}

// Kept, or a violated dependence. Refused where there is no such block, or an operation of it is not placed.
pub fn check(blocks: &Blocks, block: u8) -> Result<Verdict, Refusal>
    ensures { Checked (state_of blocks.now) block result }
{
    let entries = blocks.entries(block).ok_or(Refusal::NoSuch)?;
    judge(&blocks.description(), entries)
}
