// Where a block may lead when it ends.
use registers::{NumberBelow, Predicate, PredicateName};

// The number of a block, 0 to 15.
pub type BlockNumber = NumberBelow<16>;

#[derive(Clone, Copy)]
pub enum Exit {
    Halt,
    Next,
    Goto(BlockNumber),
    If {
        predicate: Predicate,
        target: BlockNumber,
    },
    Loop(BlockNumber),
}

// An exit as it is handed in, before anything is known of it. One enum for this, `Exit` and the written exits would be generic in
// two types and could have no methods where each is used: a crate gives none to the type of another.
#[derive(Clone, Copy)]
pub enum RawExit {
    Halt,
    Next,
    Goto(u8),
    If {
        predicate: PredicateName,
        target: u8,
    },
    Loop(u8),
}
