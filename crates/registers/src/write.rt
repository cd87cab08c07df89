// Writes to registers.
ghost use Rattle.std.specs.Prelude.{◌≡◌};
ghost use Rattle.registers.specs.Writes.{word_write, bit_write};

use crate::banked::{General, Predicate};

// A value for a register that is a place. A case for each kind, since their values are of different types.
#[derive(Clone, Copy)]
pub enum Write {
    Word { to: General, value: u32 },
    Bit { to: Predicate, value: bool },
}

impl General {
    // The value for this register; dropped where it is a constant.
    pub fn write(self, value: u32) -> Option<Write>
        ensures { result ≡ word_write self value }
    {
        let write = Write::Word { to: self, value };
        self.constant().is_none().then_some(write)
    }
}

impl Predicate {
    // The value for this register; dropped where it is a constant.
    pub fn write(self, value: bool) -> Option<Write>
        ensures { result ≡ bit_write self value }
    {
        let write = Write::Bit { to: self, value };
        self.constant().is_none().then_some(write)
    }
}
