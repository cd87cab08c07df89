// A memory whose stores to one section are barred.
ghost use Rattle.std.specs.Prelude.{◌≡◌, not, ◌&&◌, is_ok, MatchResult};
ghost use Rattle.memories.specs.Rules.{inside, right};

use crate::memory::Memory;
use crate::section::Section;
use crate::wrong::WrongSections;
use operations::Refusal;

#[derive(Drop)]
pub struct Fence<M> {
    below: M,
    section: Section,
}

impl<M: Drop> Fence<M> {
    pub fn over(below: M, section: Section) -> Result<Fence<M>, WrongSections<M>>
        ensures answer { is_ok result ≡ right section }
        ensures held { MatchResult result (λ m. (m.below ≡ below) × (m.section ≡ section)) (λ e. e.back ≡ below) }
    {
        if !section.is_right() {
            return Err(WrongSections { back: below });
        }
        Ok(Fence { below, section })
    }
}

impl<M: Memory> Memory for Fence<M> {
    ghost has = { λ m a. M.Memory.has m.below a };

    ghost may = { λ m a. not (inside m.section a) && M.Memory.may m.below a };

    ghost word = { λ m a. M.Memory.word m.below a };

    ghost loan = { λ m. M.Memory.loan m.below };

    fn load(&self, address: u32) -> Result<u32, Refusal> {
        self.below.load(address)
    }

    fn store(&mut self, address: u32, value: u32) -> Result<(), Refusal> {
        if self.section.holds(address) {
            self.below.load(address)?;
            return Err(Refusal::StoreBarred);
        }
        self.below.store(address, value)
    }
}
