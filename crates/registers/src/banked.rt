// Registers by their banks: in each there are static and rotating ones.
use crate::number::RegisterNumber;

// A register of `BITS` bits, static or rotating, by a number of type `N`.
#[derive(Clone, Copy, Debug)]
pub enum Banked<N, const BITS: usize> {
    Static(N),
    Rotating(N),
}

// A register of 32 bits.
pub type General = Banked<RegisterNumber, 32>;

// A register of one bit.
pub type Predicate = Banked<RegisterNumber, 1>;

// Registers as they are named from outside, with any number.
pub type GeneralName = Banked<u8, 32>;

pub type PredicateName = Banked<u8, 1>;
