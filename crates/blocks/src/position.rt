// The operations of a block, and where they are placed.
ghost use Rattle.std.specs.Prelude.{◌<◌};

use operations::Operation;

// A cycle of a block, and a slot in it.
#[derive(Clone, Copy, PartialEq, Eq)]
pub struct Position {
    pub cycle: u16,
    pub slot: u8,
    ghost early: { cycle < 1024 },
    ghost narrow: { slot < 8 },
}

#[derive(Clone, Copy)]
pub struct Entry {
    pub operation: Operation,
    pub position: Option<Position>,
}
