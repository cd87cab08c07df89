// Numbers below a limit.
ghost use Rattle.std.specs.Prelude.{◌≡◌, ◌<◌};

#[derive(Clone, Copy)]
pub struct NumberBelow<const LIMIT: u8> {
    pub number: u8,
    ghost below: { number < LIMIT },
}

// The number of a register in its bank, 0 to 31. RRB, the register that rotating register 0 now is, is one too.
pub type RegisterNumber = NumberBelow<32>;

impl<const LIMIT: u8> NumberBelow<LIMIT> {
    pub fn get(self) -> u8
        ensures { result ≡ self.entry.number }
    {
        self.number
    }
}
