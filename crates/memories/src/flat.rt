// Words one after another from address 0.
ghost use Rattle.std.specs.Prelude.{◌≡◌, ◌/◌, true, [], ◌∷◌};
ghost use Rattle.memories.specs.Meaning.{flat_has, flat_word, loaded};

use crate::memory::Memory;
use operations::Refusal;

#[derive(Drop)]
pub struct Flat<'a> {
    pub words: &'a mut [u32],
}

impl<'a> Flat<'a> {
    // The place of the word at an address.
    fn index(&self, address: u32) -> Result<usize, Refusal>
        ensures { result ≡ loaded (flat_has self.now.words.now address) (address / 4) }
    {
        // `as`, for std has no `From` of a `u32` for `usize`; it is proved to fit.
        let index = (address / 4) as usize;
        if address % 4 != 0 || index >= self.words.len() {
            return Err(Refusal::NoSuchWord);
        }
        Ok(index)
    }
}

impl<'a> Memory for Flat<'a> {
    ghost has = { λ m a. flat_has m.words.now a };

    ghost may = { λ m a. true };

    ghost word = { λ m a. flat_word m.words.now a };

    ghost loan = { λ m. m.words.ghost_name ∷ [] };

    fn load(&self, address: u32) -> Result<u32, Refusal> {
        let index = self.index(address)?;
        Ok(self.words[index])
    }

    fn store(&mut self, address: u32, value: u32) -> Result<(), Refusal> {
        let index = self.index(address)?;
        self.words[index] = value;
        Ok(())
    }
}
