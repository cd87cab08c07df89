// Sixteen blocks, with what always holds of them.
ghost use Rattle.std.specs.Prelude.{◌≡◌, vec_len};
ghost use Rattle.blocks.specs.Machine.{slots_of};
ghost use Rattle.blocks.specs.View.{BlocksFit, LastEnds};

use crate::block::Block;
use crate::description::Description;

// Each operation that is placed stands in a slot that takes its class, and block 15 leads to no block behind.
#[derive(Drop)]
pub struct Blocks {
    pub(crate) description: Description,
    pub(crate) blocks: Vec<Block>,
    ghost sixteen: { vec_len blocks ≡ 16 },
    ghost fit: { BlocksFit (slots_of description.slots) blocks.items },
    ghost last: { LastEnds blocks.items },
}
