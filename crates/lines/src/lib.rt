// One line of a text: what it is written as, and reading it.
#![tactic(auto)]

mod classes;
mod description;
mod expect;
mod item;
mod literal;
mod mark;
mod marks;
mod names;
mod number;
mod opcode;
mod operation;
mod place;
mod program;
mod raw;
mod reader;
mod saying;
mod tables;
mod token;
mod words;
mod written;

pub use description::description_line;
pub use item::Item;
pub use mark::{Latency, Mark};
pub use place::Reader;
pub use program::program_line;
pub use written::{
    Classes, DescriptionLine, ProgramLine, Token, WrittenBounds, WrittenExit, WrittenGeneral,
    WrittenOperand, WrittenOperation, WrittenPosition, WrittenPredicate, WrittenRegister,
    WrittenSources,
};
