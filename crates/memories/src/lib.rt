// Memories by their meaning: which word addresses there are, which may be stored to, and the word at each.
#![tactic(auto)]

mod fence;
mod flat;
mod lent;
mod memory;
mod packing;
mod section;
mod sectioned;
#[cfg(test)]
mod tests;
mod validity;
mod wrong;

pub use fence::Fence;
pub use flat::Flat;
pub use memory::Memory;
pub use section::Section;
pub use sectioned::Sectioned;
pub use wrong::WrongSections;
