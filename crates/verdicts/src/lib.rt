// What check says of each block that has operations.
#![tactic(auto)]

mod listing;
mod text;
mod verdict;

pub use listing::verdicts;
pub use verdict::{BlockVerdict, Standing};
