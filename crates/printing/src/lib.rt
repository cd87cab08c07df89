// Blocks printed as lines of a program.
#![tactic(auto)]

mod literals;
mod sets;
mod shown;
#[cfg(test)]
mod tests;
mod writing;

pub use sets::{print_block, print_set};
