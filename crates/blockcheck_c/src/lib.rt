// The verdicts of a program as numbers, for a compiler in C or C++.
#![tactic(auto)]

mod entry;
mod numbers;
mod rows;

pub use entry::blockcheck_verdicts;
