// Sections of words, packed one after another in one lent slice.
ghost use Rattle.std.specs.Prelude.{◌≡◌, ℕ, ◌<◌, ◌%◌, Ok, true, ◌&&◌, [], ◌∷◌, length, is_ok, IfOk, IfErr, ◌==◌};
ghost use Rattle.std.specs.Option.{ok_or};
ghost use Rattle.operations.specs.declared.refusal.Refusal.TheVariants.{NoSuchWord};
ghost use Rattle.memories.specs.Sections.{index, covered, sect_has, sect_word, well_formed};

use crate::memory::Memory;
use crate::packing::find;
use crate::section::Section;
use crate::validity::{has_room, in_order};
use crate::wrong::WrongSections;
use operations::Refusal;

#[derive(Drop)]
pub struct Sectioned<'s, 'w> {
    sections: &'s [Section],
    words: &'w mut [u32],
}

impl<'s, 'w> Sectioned<'s, 'w> {
    pub fn over(
        sections: &'s [Section],
        words: &'w mut [u32],
    ) -> Result<Sectioned<'s, 'w>, WrongSections<&'w mut [u32]>>
        ensures answer { is_ok result ≡ well_formed sections.now (length words.old) }
        ensures held { IfOk result (λ m. (m.sections.now ≡ sections.now) × ((m.words.now ≡ words.old) × (m.words.ghost_name ≡ words.entry.ghost_name))) }
        ensures refused { IfErr result (λ e. (e.back.now ≡ words.old) × (e.back.ghost_name ≡ words.entry.ghost_name)) }
        ensures has { IfOk result (λ m. (a : ℕ) → sect_has m.sections.now m.words.now a ≡ (a % 4 == 0 && covered sections.now a)) }
    {
        if sections.len() > 16 || !in_order(sections) || !has_room(sections, words.len()) {
            return Err(WrongSections { back: words });
        }
        Ok(Sectioned { sections, words })
    }
}

impl<'s, 'w> Sectioned<'s, 'w> {
    // The place of the word at an address.
    fn place(&self, address: u32) -> Result<usize, Refusal>
        ensures found { result ≡ ok_or (index self.now.sections.now (length self.now.words.now) address) NoSuchWord }
        ensures below { (k : ℕ) → result ≡ Ok k → k < length self.now.words.now }
    {
        find(self.sections, self.words.len(), address).ok_or(Refusal::NoSuchWord)
    }
}

impl<'s, 'w> Memory for Sectioned<'s, 'w> {
    ghost has = { λ m a. sect_has m.sections.now m.words.now a };

    ghost may = { λ m a. true };

    ghost word = { λ m a. sect_word m.sections.now m.words.now a };

    ghost loan = { λ m. m.words.ghost_name ∷ [] };

    fn load(&self, address: u32) -> Result<u32, Refusal> {
        let place = self.place(address)?;
        Ok(self.words[place])
    }

    fn store(&mut self, address: u32, value: u32) -> Result<(), Refusal> {
        let place = self.place(address)?;
        self.words[place] = value;
        Ok(())
    }
}
