// The machine's description, and sixteen blocks of operations, each placed at a cycle and a slot or not yet placed.
#![tactic(auto)]

mod block;
mod blocks;
mod calls;
mod describing;
mod description;
mod exit;
mod exits;
mod filling;
mod position;
mod reading;
#[cfg(test)]
mod tests;

pub use blocks::Blocks;
pub use describing::SLOTS;
pub use description::{Bounds, Description, Slot, Slots};
pub use exit::{BlockNumber, Exit, RawExit};
pub use exits::BLOCKS;
pub use filling::CYCLES;
pub use position::{Entry, Position};
