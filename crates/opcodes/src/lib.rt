// The opcodes of the core, its conditions and its actions, and what each of them gives.
#![tactic(auto)]

mod compare;
mod integer;
mod shift;
#[cfg(test)]
mod tests;
mod text;

pub use compare::{Action, Condition};
pub use integer::{BinaryOpcode, UnaryOpcode};
