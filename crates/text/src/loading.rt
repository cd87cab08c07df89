// A program, line by line.
use crate::stage::Stage;
use blocks::Blocks;

// The blocks so far, and where in the program we are.
#[derive(Drop)]
pub(crate) struct Loading {
    pub(crate) blocks: Blocks,
    pub(crate) stage: Stage,
}
