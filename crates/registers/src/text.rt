// Registers and places as text.
ghost use Rattle.std.specs.Prelude.{Some, decimal};
ghost use Rattle.registers.specs.Texts.{general_text, predicate_text, register_text, place_text};

use crate::banked::{General, Predicate};
use crate::number::NumberBelow;
use crate::register::{Place, Register};
use std::fmt;

impl<const LIMIT: u8> fmt::Display for NumberBelow<LIMIT> {
    ghost output = { λ n. Some (decimal n.number) };

    fn fmt<W: fmt::Write>(&self, f: &mut fmt::Formatter<W>) -> fmt::Result {
        self.number.fmt(f)
    }
}

// What a register number is called: 32 of them are a bank's. By hand, since a derive would write the name that all limits share.
impl<const LIMIT: u8> fmt::Debug for NumberBelow<LIMIT> {
    fn fmt<W: fmt::Write>(&self, f: &mut fmt::Formatter<W>) -> fmt::Result {
        let name = if LIMIT == 32 {
            "RegisterNumber"
        } else {
            "NumberBelow"
        };
        f.debug_struct(name).field("number", &self.number).finish()
    }
}

// One impl for both kinds would have to find a letter for every width.
impl fmt::Display for General {
    ghost output = { λ g. Some (general_text g) };

    fn fmt<W: fmt::Write>(&self, f: &mut fmt::Formatter<W>) -> fmt::Result {
        match *self {
            General::Static(n) => write!(f, "r{n}"),
            General::Rotating(n) => write!(f, "rr{n}"),
        }
    }
}

impl fmt::Display for Predicate {
    ghost output = { λ p. Some (predicate_text p) };

    fn fmt<W: fmt::Write>(&self, f: &mut fmt::Formatter<W>) -> fmt::Result {
        match *self {
            Predicate::Static(n) => write!(f, "p{n}"),
            Predicate::Rotating(n) => write!(f, "rp{n}"),
        }
    }
}

impl fmt::Display for Register {
    ghost output = { λ x. Some (register_text x) };

    fn fmt<W: fmt::Write>(&self, f: &mut fmt::Formatter<W>) -> fmt::Result {
        match *self {
            Register::General(g) => write!(f, "{g}"),
            Register::Predicate(p) => write!(f, "{p}"),
        }
    }
}

impl fmt::Display for Place {
    ghost output = { λ p. Some (place_text p) };

    fn fmt<W: fmt::Write>(&self, f: &mut fmt::Formatter<W>) -> fmt::Result {
        match *self {
            Place::Register(x) => write!(f, "{x}"),
            Place::Memory => write!(f, "memory"),
        }
    }
}
