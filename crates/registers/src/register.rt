// Registers and places.
ghost use Rattle.std.specs.Prelude.{◌≡◌, ◌+◌, ◌%◌, not, is_some};
ghost use Rattle.registers.specs.Registers.{numbered, general_place, predicate_place, general_constant, predicate_constant, physical};

use crate::banked::{Banked, General, Predicate};
use crate::number::{NumberBelow, RegisterNumber};

// How many registers a bank has.
const REGISTERS: u8 = 32;

#[derive(Clone, Copy, Debug)]
pub enum Register {
    General(General),
    Predicate(Predicate),
}

// What can be written and read back: a register that is no constant, or the memory as a whole.
#[derive(Clone, Copy, Debug)]
pub enum Place {
    Register(Register),
    Memory,
}

impl<const LIMIT: u8> NumberBelow<LIMIT> {
    // The number, where it is below the limit. No `then`: a closure that makes a number would have to require this test once more.
    pub fn new(number: u8) -> Option<NumberBelow<LIMIT>>
        ensures { result ≡ numbered number }
    {
        if number < LIMIT {
            Some(NumberBelow { number })
        } else {
            None
        }
    }
}

impl RegisterNumber {
    // The physical number of the rotating register with this number.
    pub fn rotated(self, rrb: RegisterNumber) -> RegisterNumber
        ensures { result.number ≡ (self.number + rrb.number) % 32 }
    {
        RegisterNumber {
            number: (self.number + rrb.number) % REGISTERS,
        }
    }
}

impl<const BITS: usize> Banked<RegisterNumber, BITS> {
    // The register that holds it while the base is `rrb`.
    pub fn physical(self, rrb: RegisterNumber) -> Banked<RegisterNumber, BITS>
        ensures { result ≡ physical rrb self.entry }
    {
        match self {
            Banked::Static(_) => self,
            Banked::Rotating(n) => Banked::Rotating(n.rotated(rrb)),
        }
    }
}

impl General {
    // What it always reads, where that is fixed: r0 reads 0.
    pub fn constant(self) -> Option<u32>
        ensures { result ≡ general_constant self }
    {
        match self {
            General::Static(n) => (n.number == 0).then_some(0),
            General::Rotating(_) => None,
        }
    }

    // The register as a place: any but a constant.
    pub fn place(self) -> Option<Place>
        ensures value { result ≡ general_place self }
        ensures test { is_some result ≡ not (is_some (general_constant self)) }
    {
        let place = Place::Register(Register::General(self));
        self.constant().is_none().then_some(place)
    }
}

// One line in `place`, as in `write`, differs from that of a general register: its case of `Register`, and of `Write`.
impl Predicate {
    // What it always reads, where that is fixed: p0 reads 0 and p1 reads 1.
    pub fn constant(self) -> Option<bool>
        ensures { result ≡ predicate_constant self }
    {
        match self {
            Predicate::Static(n) => match n.number {
                0 => Some(false),
                1 => Some(true),
                _ => None,
            },
            Predicate::Rotating(_) => None,
        }
    }

    // The register as a place: any but a constant.
    pub fn place(self) -> Option<Place>
        ensures value { result ≡ predicate_place self }
        ensures test { is_some result ≡ not (is_some (predicate_constant self)) }
    {
        let place = Place::Register(Register::Predicate(self));
        self.constant().is_none().then_some(place)
    }
}
