// A memory that is lent is a memory.
ghost use Rattle.std.specs.Prelude.{◌∷◌};

use crate::memory::Memory;
use operations::Refusal;

impl<M: Memory> Memory for &mut M {
    ghost has = { λ m a. M.Memory.has m.now a };

    ghost may = { λ m a. M.Memory.may m.now a };

    ghost word = { λ m a. M.Memory.word m.now a };

    ghost loan = { λ m. m.ghost_name ∷ M.Memory.loan m.now };

    fn load(&self, address: u32) -> Result<u32, Refusal> {
        (**self).load(address)
    }

    fn store(&mut self, address: u32, value: u32) -> Result<(), Refusal> {
        (**self).store(address, value)
    }
}
