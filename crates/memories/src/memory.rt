// What a memory is.
ghost use Rattle.std.specs.Prelude.{◌≡◌, ℕ, Bool, ◌&&◌, List};
ghost use Rattle.memories.specs.Meaning.{loaded, stored, after};

use operations::Refusal;

pub trait Memory {
    // Whether there is a word at an address.
    ghost has: { Self → ℕ → Bool };

    // Whether a word may be stored to.
    ghost may: { Self → ℕ → Bool };

    // The word at an address; 0 where there is none.
    ghost word: { Self → ℕ → ℕ };

    // The names of what is lent.
    ghost loan: { Self → List ℕ };

    fn load(&self, address: u32) -> Result<u32, Refusal>
        ensures { result ≡ loaded (has self.now address) (word self.now address) };

    fn store(&mut self, address: u32, value: u32) -> Result<(), Refusal>
        ensures answer { result ≡ stored (has self.old address) (may self.old address) }
        ensures same_has { (a : ℕ) → has self.new a ≡ has self.old a }
        ensures same_may { (a : ℕ) → may self.new a ≡ may self.old a }
        ensures words { (a : ℕ) → word self.new a ≡ after (has self.old address && may self.old address) address value a (word self.old a) }
        ensures lent { loan self.new ≡ loan self.old };
}
