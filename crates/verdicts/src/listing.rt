// The verdicts of a set of blocks.
ghost use Rattle.std.specs.Prelude.{◌≡◌, IfSome, IfOk, Some};
ghost use Rattle.blocks.specs.Whole.{state_of};
ghost use Rattle.verdicts.specs.Listing.{filled, answer_of, Told};
ghost use Rattle.verdicts.specs.declared.verdict.Standing.{Standing};

use crate::verdict::{BlockVerdict, Standing};
use blocks::{BLOCKS, Blocks};
use checker::{Verdict, check};
use operations::Refusal;
use std::alloc::{AllocError, Global};

// Whether the block has operations.
fn is_filled(blocks: &Blocks, block: u8) -> bool
    ensures { result ≡ filled (state_of blocks.now) block }
{
    blocks
        .entries(block)
        .is_some_and(|entries| !entries.is_empty())
}

// How a block stands to which check answers so; None where there is no such block.
fn standing(answer: Result<Verdict, Refusal>) -> Option<Standing>
    ensures sound { IfSome result (λ s. answer ≡ answer_of s) }
    ensures complete { (s : Standing) → answer ≡ answer_of s → result ≡ Some s }
{
    match answer {
        Ok(verdict) => Some(Standing::from(verdict)),
        Err(Refusal::Unplaced(lowest)) => Some(Standing::Unplaced(lowest)),
        Err(_) => None,
    }
}

// What check says of each block that has operations, ascending.
pub fn verdicts(heap: Global, blocks: &Blocks) -> Result<Vec<BlockVerdict>, AllocError>
    ensures { IfOk result (λ v. Told (state_of blocks.now) v.items) }
{
    let mut all = Vec::with_capacity(heap, usize::from(BLOCKS))?;
    // What `check` answers is told by a relation, and of that `filter_map` tells no order: so this is a loop.
    for block in 0..BLOCKS {
        if !is_filled(blocks, block) {
            continue;
        }
        let Some(standing) = standing(check(blocks, block)) else {
            continue;
        };
        all.push(BlockVerdict { block, standing })?;
    }
    Ok(all)
}
