// Exits as they are handed in, and what they mean.
ghost use Rattle.std.specs.Prelude.{◌≡◌};
ghost use Rattle.blocks.specs.Exits.{raw_goes_on, exit_named, exit_for};

use crate::exit::{BlockNumber, Exit, RawExit};

// How many blocks there are.
pub const BLOCKS: u8 = 16;

// The number of the last block.
const LAST: u8 = 15;

impl RawExit {
    // Whether it can lead to the block behind.
    fn goes_on(self) -> bool
        ensures { result ≡ raw_goes_on self }
    {
        matches!(self, RawExit::Next | RawExit::If { .. } | RawExit::Loop(_))
    }

    // The exit, where there are the block and the register that it names.
    fn named(self) -> Option<Exit>
        ensures { result ≡ exit_named self }
    {
        match self {
            RawExit::Halt => Some(Exit::Halt),
            RawExit::Next => Some(Exit::Next),
            RawExit::Goto(target) => Some(Exit::Goto(BlockNumber::new(target)?)),
            RawExit::If { predicate, target } => Some(Exit::If {
                predicate: predicate.register()?,
                target: BlockNumber::new(target)?,
            }),
            RawExit::Loop(target) => Some(Exit::Loop(BlockNumber::new(target)?)),
        }
    }

    // The exit as one of that block: no block stands behind the last.
    pub(crate) fn typed(self, block: u8) -> Option<Exit>
        ensures { result ≡ exit_for block self }
    {
        // A test of its own: nothing is handed on.
        if block >= LAST && self.goes_on() {
            return None;
        }
        self.named()
    }
}
