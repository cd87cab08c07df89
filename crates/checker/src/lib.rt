// Which schedules keep the dependences of a block.
#![tactic(auto)]

mod checking;
mod dependence;
mod pair;
mod pairs;
mod placed;
mod schedule;
mod seeing;
#[cfg(test)]
mod tests;
mod verdict;

pub use checking::check;
pub use verdict::Verdict;
