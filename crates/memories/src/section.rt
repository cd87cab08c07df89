// A range of bytes.
ghost use Rattle.std.specs.Prelude.{◌≡◌};
ghost use Rattle.memories.specs.Rules.{inside, right};

// The bytes from `offset` on, `length` of them.
#[derive(Clone, Copy)]
pub struct Section {
    pub offset: u32,
    pub length: u64,
}

impl Section {
    // Whether an address lies in it.
    pub(crate) fn holds(self, address: u32) -> bool
        ensures { result ≡ inside self address }
    {
        self.offset <= address && u64::from(address - self.offset) < self.length
    }

    // Whether it is whole words, at least one, that end at 2^32 or before.
    pub(crate) fn is_right(self) -> bool
        ensures { result ≡ right self }
    {
        self.offset % 4 == 0
            && self.length % 4 == 0
            && self.length > 0
            && self.length <= 4294967296 - u64::from(self.offset)
    }
}
