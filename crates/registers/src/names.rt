// Registers as they are named from outside, with any number.
ghost use Rattle.std.specs.Prelude.{◌≡◌, ℕ, ◌≤◌};
ghost use Rattle.registers.specs.Registers.{numbered};
ghost use Rattle.registers.specs.Names.{handed, named, raw_name, register_of};

use crate::banked::{Banked, GeneralName, PredicateName};
use crate::number::RegisterNumber;
use crate::register::Register;

// An enum of its own beside `Register`: the derives of one that is generic in the number would owe that any number fits in memory.
#[derive(Clone, Copy, PartialEq, Eq, Debug)]
pub enum RegisterName {
    General(GeneralName),
    Predicate(PredicateName),
}

impl<const BITS: usize> Banked<u8, BITS> {
    // The register of that name, where there is one.
    pub fn register(self) -> Option<Banked<RegisterNumber, BITS>>
        ensures { result ≡ named self.entry }
    {
        match self {
            Banked::Static(n) => Some(Banked::Static(RegisterNumber::new(n)?)),
            Banked::Rotating(n) => Some(Banked::Rotating(RegisterNumber::new(n)?)),
        }
    }
}

// What stands for every number above: no register and no block has it.
const MISSING: u8 = 255;

// Any number as it is handed in: it is below a limit if and only if the number is, and then it is that number.
pub fn handed(number: u64) -> u8
    ensures value { result ≡ handed number }
    ensures meant { (limit : ℕ) → limit ≤ 255 → numbered {limit = limit} result ≡ numbered number }
{
    u8::try_from(number).unwrap_or(MISSING)
}

impl<const BITS: usize> Banked<u64, BITS> {
    // The name of it that is handed in: it names the very register, or none where there is none.
    pub fn raw(self) -> Banked<u8, BITS>
        ensures value { result ≡ raw_name self.entry }
        ensures meant { named result ≡ named self.entry }
    {
        match self {
            Banked::Static(n) => Banked::Static(handed(n)),
            Banked::Rotating(n) => Banked::Rotating(handed(n)),
        }
    }
}

impl RegisterName {
    // The register of that name, where there is one.
    pub fn register(self) -> Option<Register>
        ensures { result ≡ register_of self }
    {
        match self {
            RegisterName::General(name) => Some(Register::General(name.register()?)),
            RegisterName::Predicate(name) => Some(Register::Predicate(name.register()?)),
        }
    }
}
