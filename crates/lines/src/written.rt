// Lines as they are written: any numbers of up to ten digits, any registers as operands of any opcode.
use crate::mark::Mark;
use operations::{Opcode, UpToTwo};
use registers::Banked;

// Registers with any number, of which there may be none.
pub type WrittenGeneral = Banked<u64, 32>;

pub type WrittenPredicate = Banked<u64, 1>;

#[derive(Clone, Copy, PartialEq, Eq, Debug)]
pub enum WrittenRegister {
    General(WrittenGeneral),
    Predicate(WrittenPredicate),
}

// An exit to any block, of which there may be none. As with the registers above and the operands below, an enum of its own beside what
// is handed in: a generic one would have its methods in the crate below alone, and its derives would owe that any number fits in memory.
#[derive(Clone, Copy)]
pub enum WrittenExit {
    Halt,
    Next,
    Goto(u64),
    If {
        predicate: WrittenPredicate,
        target: u64,
    },
    Loop(u64),
}

#[derive(Clone, Copy)]
pub enum WrittenOperand {
    Register(WrittenRegister),
    Literal(i64),
}

#[derive(Clone, Copy)]
pub enum WrittenSources {
    One(WrittenOperand),
    Two(WrittenOperand, WrittenOperand),
}

#[derive(Clone, Copy)]
pub struct WrittenOperation {
    pub opcode: Opcode,
    // p1 where none is written.
    pub guard: WrittenPredicate,
    pub destinations: UpToTwo<WrittenRegister>,
    pub sources: WrittenSources,
}

// Any numbers: a `Position` has only those that there are, and `Bounds` likewise below.
#[derive(Clone, Copy)]
pub struct WrittenPosition {
    pub cycle: u64,
    pub slot: u64,
}

#[derive(Clone, Copy)]
pub enum ProgramLine {
    Block(u64),
    Operation {
        position: Option<WrittenPosition>,
        operation: WrittenOperation,
    },
    Exit(WrittenExit),
}

// Of any slot: a `Slot` of `blocks` takes one class at least, by its type.
#[derive(Clone, Copy)]
pub struct Classes {
    pub integer: bool,
    pub memory: bool,
    pub compare: bool,
}

#[derive(Clone, Copy)]
pub struct WrittenBounds {
    pub shortest: u64,
    pub longest: u64,
}

#[derive(Clone, Copy)]
pub enum DescriptionLine {
    Slot { number: u64, classes: Classes },
    Integer(WrittenBounds),
    Load(WrittenBounds),
    Compare(WrittenBounds),
}

// What an item of a line says.
#[derive(Clone, Copy)]
pub enum Token {
    Register(WrittenRegister),
    Literal(i64),
    Opcode(Opcode),
    Mark(Mark),
}
