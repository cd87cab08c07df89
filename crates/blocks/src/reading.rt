// What is read of the blocks.
ghost use Rattle.std.specs.Prelude.{◌≡◌, ◌<◌, ◌≤◌, MatchOption};
ghost use Rattle.std.specs.Option.{option_map};
ghost use Rattle.blocks.specs.Calls.{body_at, block_at};
ghost use Rattle.blocks.specs.Entries.{WellPlaced};
ghost use Rattle.blocks.specs.Machine.{slots_of};
ghost use Rattle.blocks.specs.View.{body_of};
ghost use Rattle.blocks.specs.Whole.{state_of};

use crate::block::Block;
use crate::blocks::Blocks;
use crate::description::Description;
use crate::exit::Exit;
use crate::position::Entry;

impl Blocks {
    pub fn description(&self) -> Description
        ensures { result ≡ (state_of self.now).description }
    {
        self.description
    }

    // The block of that number, where there is one.
    fn block(&self, block: u8) -> Option<&Block>
        ensures { MatchOption result (16 ≤ block) (λ b. (block < 16) × (body_of b.now ≡ body_at (state_of self.now) block)) }
    {
        self.blocks.get(usize::from(block))
    }

    // The operations of the block, in written order.
    pub fn entries(&self, block: u8) -> Option<&[Entry]>
        ensures { MatchOption result (16 ≤ block) (λ es. (block < 16) × (es.now ≡ (body_at (state_of self.now) block).entries) × WellPlaced (slots_of (state_of self.now).description.slots) es.now) }
    {
        self.block(block).map(|found| found.entries.as_slice())
    }

    // Where the block leads when it ends.
    pub fn exit_of(&self, block: u8) -> Option<Exit>
        ensures { result ≡ option_map (λ b. b.exit) (block_at (state_of self.now) block) }
    {
        self.block(block).map(|found| found.exit)
    }
}
