// Registers, the names that they are given from outside, places, and writes to registers.
#![tactic(auto)]

mod banked;
mod equality;
mod names;
mod number;
mod register;
mod same;
mod text;
mod write;

pub use banked::{Banked, General, GeneralName, Predicate, PredicateName};
pub use equality::equality_tells;
pub use names::{RegisterName, handed};
pub use number::{NumberBelow, RegisterNumber};
pub use register::{Place, Register};
pub use same::Telling;
pub use write::Write;
