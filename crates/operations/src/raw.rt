// Operations as they are handed in, before anything is known of them.
use opcodes::{Action, BinaryOpcode, Condition, UnaryOpcode};
use registers::{PredicateName, RegisterName};

#[derive(Clone, Copy, Debug)]
pub enum Opcode {
    Binary(BinaryOpcode),
    Unary(UnaryOpcode),
    // With the actions of the first and of the second destination.
    Compare(Condition, Action, Action),
    Load,
    Store,
}

// An enum of its own beside `Source`: a literal of either kind means the same, but one enum over the registers' types would name neither.
#[derive(Clone, Copy, Debug)]
pub enum Operand {
    Register(RegisterName),
    Literal(i32),
}

#[derive(Clone, Copy, Debug)]
pub enum UpToTwo<T> {
    Zero,
    One(T),
    Two(T, T),
}

#[derive(Clone, Copy, Debug)]
pub struct RawOperation {
    pub opcode: Opcode,
    pub guard: PredicateName,
    pub destinations: UpToTwo<RegisterName>,
    pub sources: UpToTwo<Operand>,
}
