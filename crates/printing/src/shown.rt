// Lines of a program as text.
ghost use Rattle.std.specs.Prelude.{Some};
ghost use Rattle.lines.specs.declared.written.ProgramLine.TheVariants as line;
ghost use Rattle.lines.specs.Lines.{program_line_text};
ghost use Rattle.printing.specs.Written.{written_exit};
ghost use Rattle.printing.specs.Printed.{entry_text};

use blocks::{Entry, Exit};
use std::fmt;

// An operation with its position.
#[derive(Clone, Copy)]
pub(crate) struct EntryLine(pub(crate) Entry);

impl fmt::Display for EntryLine {
    ghost output = { λ x. Some (entry_text x.0) };

    fn fmt<W: fmt::Write>(&self, f: &mut fmt::Formatter<W>) -> fmt::Result {
        let operation = self.0.operation;
        match self.0.position {
            Some(p) => write!(f, "{}:{} {operation}", p.cycle, p.slot),
            None => write!(f, "- {operation}"),
        }
    }
}

#[derive(Clone, Copy)]
pub(crate) struct ExitLine(pub(crate) Exit);

impl fmt::Display for ExitLine {
    ghost output = { λ x. Some (program_line_text (line.Exit (written_exit x.0))) };

    fn fmt<W: fmt::Write>(&self, f: &mut fmt::Formatter<W>) -> fmt::Result {
        match self.0 {
            Exit::Halt => write!(f, "exit halt"),
            Exit::Next => write!(f, "exit next"),
            Exit::Goto(target) => write!(f, "exit goto {}", target.number),
            Exit::If { predicate, target } => {
                write!(f, "exit if {predicate} goto {}", target.number)
            }
            Exit::Loop(target) => write!(f, "exit loop {}", target.number),
        }
    }
}
