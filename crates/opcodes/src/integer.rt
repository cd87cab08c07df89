// Integer opcodes on words of 32 bits.
ghost use Rattle.std.specs.Prelude.{◌≡◌};
ghost use Rattle.opcodes.specs.Words.{binary_result, unary_result};

use crate::shift::{shift_left, shift_right, shift_right_signed};

// The opcodes with two sources.
#[derive(Clone, Copy, PartialEq, Eq, Debug)]
pub enum BinaryOpcode {
    Add,
    Sub,
    And,
    Or,
    Xor,
    Shl,
    Shr,
    Shra,
    Min,
    Max,
    Minl,
    Maxl,
}

// The opcodes with one source.
#[derive(Clone, Copy, PartialEq, Eq, Debug)]
pub enum UnaryOpcode {
    Abs,
    Move,
}

impl BinaryOpcode {
    // The result at the sources `a` and `b`.
    pub fn result(self, a: u32, b: u32) -> u32
        ensures { result ≡ binary_result self a b }
    {
        match self {
            BinaryOpcode::Add => a.wrapping_add(b),
            BinaryOpcode::Sub => a.wrapping_sub(b),
            BinaryOpcode::And => a & b,
            BinaryOpcode::Or => a | b,
            BinaryOpcode::Xor => a ^ b,
            BinaryOpcode::Shl => shift_left(a, b),
            BinaryOpcode::Shr => shift_right(a, b),
            BinaryOpcode::Shra => shift_right_signed(a, b),
            BinaryOpcode::Min => a.cast_signed().min(b.cast_signed()).cast_unsigned(),
            BinaryOpcode::Max => a.cast_signed().max(b.cast_signed()).cast_unsigned(),
            BinaryOpcode::Minl => a.min(b),
            BinaryOpcode::Maxl => a.max(b),
        }
    }
}

impl UnaryOpcode {
    // The result at the source `a`.
    pub fn result(self, a: u32) -> u32
        ensures { result ≡ unary_result self a }
    {
        match self {
            UnaryOpcode::Abs => a.cast_signed().unsigned_abs(),
            UnaryOpcode::Move => a,
        }
    }
}
