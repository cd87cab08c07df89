// Opcodes, conditions and actions as text.
ghost use Rattle.std.specs.Prelude.{Some};
ghost use Rattle.opcodes.specs.Texts.{binary_text, unary_text, condition_text, action_text};

use crate::compare::{Action, Condition};
use crate::integer::{BinaryOpcode, UnaryOpcode};
use std::fmt;

impl fmt::Display for BinaryOpcode {
    ghost output = { λ o. Some (binary_text o) };

    fn fmt<W: fmt::Write>(&self, f: &mut fmt::Formatter<W>) -> fmt::Result {
        match self {
            BinaryOpcode::Add => write!(f, "ADD"),
            BinaryOpcode::Sub => write!(f, "SUB"),
            BinaryOpcode::And => write!(f, "AND"),
            BinaryOpcode::Or => write!(f, "OR"),
            BinaryOpcode::Xor => write!(f, "XOR"),
            BinaryOpcode::Shl => write!(f, "SHL"),
            BinaryOpcode::Shr => write!(f, "SHR"),
            BinaryOpcode::Shra => write!(f, "SHRA"),
            BinaryOpcode::Min => write!(f, "MIN"),
            BinaryOpcode::Max => write!(f, "MAX"),
            BinaryOpcode::Minl => write!(f, "MINL"),
            BinaryOpcode::Maxl => write!(f, "MAXL"),
        }
    }
}

impl fmt::Display for UnaryOpcode {
    ghost output = { λ o. Some (unary_text o) };

    fn fmt<W: fmt::Write>(&self, f: &mut fmt::Formatter<W>) -> fmt::Result {
        match self {
            UnaryOpcode::Abs => write!(f, "ABS"),
            UnaryOpcode::Move => write!(f, "MOVE"),
        }
    }
}

impl fmt::Display for Condition {
    ghost output = { λ c. Some (condition_text c) };

    fn fmt<W: fmt::Write>(&self, f: &mut fmt::Formatter<W>) -> fmt::Result {
        match self {
            Condition::Never => write!(f, "FA"),
            Condition::Equal => write!(f, "="),
            Condition::Less => write!(f, "<"),
            Condition::LessEqual => write!(f, "<="),
            Condition::LogicalLess => write!(f, "<<"),
            Condition::LogicalLessEqual => write!(f, "<<="),
            Condition::Always => write!(f, "TR"),
            Condition::NotEqual => write!(f, "<>"),
            Condition::GreaterEqual => write!(f, ">="),
            Condition::Greater => write!(f, ">"),
            Condition::LogicalGreaterEqual => write!(f, ">>="),
            Condition::LogicalGreater => write!(f, ">>"),
        }
    }
}

impl fmt::Display for Action {
    ghost output = { λ a. Some (action_text a) };

    fn fmt<W: fmt::Write>(&self, f: &mut fmt::Formatter<W>) -> fmt::Result {
        match self {
            Action::Un => write!(f, "UN"),
            Action::Uc => write!(f, "UC"),
            Action::Cn => write!(f, "CN"),
            Action::Cc => write!(f, "CC"),
            Action::On => write!(f, "ON"),
            Action::Oc => write!(f, "OC"),
            Action::An => write!(f, "AN"),
            Action::Ac => write!(f, "AC"),
        }
    }
}
