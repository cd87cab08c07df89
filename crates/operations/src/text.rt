// Operations, and violated dependences, as text.
ghost use Rattle.std.specs.Prelude.{Some};
ghost use Rattle.operations.specs.Texts.{source_text, sources_text, compare_text, form_text, guard_text, operation_text, dependence_text, violation_text};

use crate::operation::{Form, Operation, Source};
use crate::refusal::{Dependence, Violation};
use crate::targets::{Target, Targets};
use opcodes::Condition;
use registers::Predicate;
use std::fmt;

impl fmt::Display for Source {
    ghost output = { λ s. Some (source_text s) };

    fn fmt<W: fmt::Write>(&self, f: &mut fmt::Formatter<W>) -> fmt::Result {
        match *self {
            Source::Register(g) => write!(f, "{g}"),
            Source::Literal(z) => write!(f, "{z}"),
        }
    }
}

// What stands behind an operation: nothing for p1, the guard that always reads 1.
#[derive(Clone, Copy)]
struct Guard(Predicate);

impl fmt::Display for Guard {
    ghost output = { λ g. Some (guard_text g.0) };

    fn fmt<W: fmt::Write>(&self, f: &mut fmt::Formatter<W>) -> fmt::Result {
        let p = self.0;
        match p.constant() {
            Some(true) => write!(f, ""),
            _ => write!(f, " if {p}"),
        }
    }
}

#[derive(Clone, Copy)]
struct Sources(Source, Source);

impl fmt::Display for Sources {
    ghost output = { λ s. Some (sources_text s.0 s.1) };

    fn fmt<W: fmt::Write>(&self, f: &mut fmt::Formatter<W>) -> fmt::Result {
        let first = self.0;
        let second = self.1;
        write!(f, "{first}, {second}")
    }
}

// A compare up to its sources.
#[derive(Clone, Copy)]
struct Compare(Condition, Targets);

impl fmt::Display for Compare {
    ghost output = { λ c. Some (compare_text c.0 c.1) };

    fn fmt<W: fmt::Write>(&self, f: &mut fmt::Formatter<W>) -> fmt::Result {
        let condition = self.0;
        let Target { to: p, action: a } = self.1.first;
        let Target { to: q, action: b } = self.1.second;
        write!(f, "{p}, {q} = CMPP.W.{condition}.{a}.{b}")
    }
}

impl fmt::Display for Form {
    ghost output = { λ x. Some (form_text x) };

    fn fmt<W: fmt::Write>(&self, f: &mut fmt::Formatter<W>) -> fmt::Result {
        match *self {
            Form::Binary {
                opcode,
                to,
                first,
                second,
            } => {
                let sources = Sources(first, second);
                write!(f, "{to} = {opcode}.W({sources})")
            }
            Form::Unary { opcode, to, source } => write!(f, "{to} = {opcode}.W({source})"),
            Form::Compare {
                condition,
                targets,
                first,
                second,
            } => {
                let compare = Compare(condition, targets);
                let sources = Sources(first, second);
                write!(f, "{compare}({sources})")
            }
            Form::Load { to, address } => write!(f, "{to} = L({address})"),
            Form::Store { address, value } => write!(f, "S({address}, {value})"),
        }
    }
}

impl fmt::Display for Operation {
    ghost output = { λ x. Some (operation_text x) };

    fn fmt<W: fmt::Write>(&self, f: &mut fmt::Formatter<W>) -> fmt::Result {
        let form = self.form;
        let guard = Guard(self.guard);
        write!(f, "{form}{guard}")
    }
}

impl fmt::Display for Dependence {
    ghost output = { λ k. Some (dependence_text k) };

    fn fmt<W: fmt::Write>(&self, f: &mut fmt::Formatter<W>) -> fmt::Result {
        match self {
            Dependence::Flow => write!(f, "flow"),
            Dependence::Anti => write!(f, "anti"),
            Dependence::Output => write!(f, "output"),
            Dependence::Memory => write!(f, "memory"),
        }
    }
}

// The kind of a dependence, its place, its operations and the least cycle.
impl fmt::Display for Violation {
    ghost output = { λ v. Some (violation_text v) };

    fn fmt<W: fmt::Write>(&self, f: &mut fmt::Formatter<W>) -> fmt::Result {
        write!(
            f,
            "{} {} {} {} needs {}",
            self.dependence, self.place, self.first, self.second, self.least
        )
    }
}
