// Sources of latencies: how many cycles a result takes, within the bounds that the machine's description gives.
#![tactic(auto)]

mod longest;
mod source;
mod stepped;
#[cfg(test)]
mod tests;

pub use longest::Longest;
pub use source::Latencies;
pub use stepped::Stepped;
