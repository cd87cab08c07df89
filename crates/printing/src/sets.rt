// Blocks printed, one alone or all that are used.
ghost use Rattle.std.specs.Prelude.{◌≤◌, IfOk, string_bytes, MatchOption};
ghost use Rattle.blocks.specs.Whole.{state_of};
ghost use Rattle.printing.specs.Printed.{BlockPrinted, SetPrinted};

use crate::writing::Contents;
use blocks::{BLOCKS, Blocks};
use std::alloc::{AllocError, Global};

// The block alone, as lines of a program; nothing where there is no such block.
pub fn print_block(heap: Global, blocks: &Blocks, block: u8) -> Result<Option<String>, AllocError>
    ensures { IfOk result (λ o. MatchOption o (16 ≤ block) (λ t. BlockPrinted (state_of blocks.now) block (string_bytes t))) }
{
    // No `?`: where there is no such block the answer is good.
    let Some(contents) = Contents::of(blocks, block) else {
        return Ok(None);
    };
    let mut out = String::new(heap);
    contents.write(&mut out, block)?;
    Ok(Some(out))
}

// The blocks that are used, ascending, as lines of a program.
pub fn print_set(heap: Global, blocks: &Blocks) -> Result<String, AllocError>
    ensures { IfOk result (λ t. SetPrinted (state_of blocks.now) (string_bytes t)) }
{
    let mut out = String::new(heap);
    // A loop: what a chain of closures has written to the text a proof would not know.
    for block in 0..BLOCKS {
        let Some(contents) = Contents::of(blocks, block) else {
            continue;
        };
        if !contents.is_used() {
            continue;
        }
        contents.write(&mut out, block)?;
    }
    Ok(out)
}
