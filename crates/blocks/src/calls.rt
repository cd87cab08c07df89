// The calls on the blocks.
ghost use Rattle.std.specs.Prelude.{◌≡◌, replicate, IfOk};
ghost use Rattle.blocks.specs.Steps.{Did};
ghost use Rattle.blocks.specs.Model.{empty};
ghost use Rattle.blocks.specs.Calls.{fresh, add_call, place_call, lift_call, exit_call};
ghost use Rattle.blocks.specs.View.{bodies_of};
ghost use Rattle.blocks.specs.Whole.{state_of};

use crate::block::Block;
use crate::blocks::Blocks;
use crate::description::Description;
use crate::exit::RawExit;
use crate::exits::BLOCKS;
use operations::{RawOperation, Refusal};
use std::alloc::{AllocError, Global};

fn empty_blocks(heap: Global) -> Result<Vec<Block>, AllocError>
    ensures { IfOk result (λ v. bodies_of v.items ≡ replicate 16 empty) }
{
    (0..BLOCKS).map(|_| Block::new(heap)).try_collect(heap)
}

impl Blocks {
    // Sixteen empty blocks, with room for all that they may get.
    pub fn new(heap: Global, description: Description) -> Result<Blocks, AllocError>
        ensures { IfOk result (λ b. state_of b ≡ fresh description) }
    {
        let blocks = empty_blocks(heap)?;
        Ok(Blocks {
            description,
            blocks,
        })
    }

    // Adds an operation, not yet placed, behind the others of the block, and answers its number. The block is looked up here and in the
    // three calls below, for a method that lends it would hold back the description, which `place` reads meanwhile.
    pub fn add(&mut self, block: u8, operation: RawOperation) -> Result<u8, Refusal>
        ensures { Did (state_of self.old) (state_of self.new) result (add_call (state_of self.old) block operation) }
    {
        let i = usize::from(block);
        let found = self.blocks.get_mut(i).ok_or(Refusal::NoSuch)?;
        found.add(operation)
    }

    // Places an operation of the block, or moves it. Cycle and slot are any numbers here: a `Position` has only those that there are.
    pub fn place(&mut self, block: u8, operation: u8, cycle: u16, slot: u8) -> Result<(), Refusal>
        ensures { Did (state_of self.old) (state_of self.new) result (place_call (state_of self.old) block operation cycle slot) }
    {
        let i = usize::from(block);
        let found = self.blocks.get_mut(i).ok_or(Refusal::NoSuch)?;
        found.place(&self.description, operation, cycle, slot)
    }

    // Takes an operation of the block from its place.
    pub fn lift(&mut self, block: u8, operation: u8) -> Result<(), Refusal>
        ensures { Did (state_of self.old) (state_of self.new) result (lift_call (state_of self.old) block operation) }
    {
        let i = usize::from(block);
        let found = self.blocks.get_mut(i).ok_or(Refusal::NoSuch)?;
        found.lift(operation)
    }

    // Sets where the block leads when it ends.
    pub fn exit(&mut self, block: u8, raw: RawExit) -> Result<(), Refusal>
        ensures { Did (state_of self.old) (state_of self.new) result (exit_call (state_of self.old) block raw) }
    {
        let i = usize::from(block);
        let found = self.blocks.get_mut(i).ok_or(Refusal::NoSuch)?;
        found.leave_by(raw.typed(block).ok_or(Refusal::NoSuch)?);
        Ok(())
    }
}
