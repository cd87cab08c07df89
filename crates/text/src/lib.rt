// The two texts: the machine's description and a program of blocks.
#![tactic(auto)]

mod cutting;
mod describing;
mod fault;
mod loading;
mod part;
mod program_lines;
mod stage;
mod taking;
mod two_texts;

pub use cutting::cut_line;
pub use fault::{Fault, RefusedText};
pub use stage::Stage;
pub use two_texts::{LIMIT, load};
