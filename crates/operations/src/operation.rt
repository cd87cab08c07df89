// Operations, in forms that cannot be wrong.
use crate::targets::Targets;
use opcodes::{BinaryOpcode, Condition, UnaryOpcode};
use registers::{General, Predicate};

#[derive(Clone, Copy, PartialEq, Eq, Debug)]
pub enum Source {
    Register(General),
    Literal(i32),
}

#[derive(Clone, Copy, PartialEq, Eq, Debug)]
pub enum Form {
    Binary {
        opcode: BinaryOpcode,
        to: General,
        first: Source,
        second: Source,
    },
    Unary {
        opcode: UnaryOpcode,
        to: General,
        source: Source,
    },
    Compare {
        condition: Condition,
        targets: Targets,
        first: Source,
        second: Source,
    },
    Load {
        to: General,
        address: General,
    },
    Store {
        address: General,
        value: General,
    },
}

#[derive(Clone, Copy, PartialEq, Eq, Debug)]
pub struct Operation {
    pub guard: Predicate,
    pub form: Form,
}
