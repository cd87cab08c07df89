// Verdicts as text.
ghost use Rattle.std.specs.Prelude.{Some};
ghost use Rattle.verdicts.specs.Texts.{standing_text, block_verdict_text};

use crate::verdict::{BlockVerdict, Standing};
use std::fmt;

impl fmt::Display for Standing {
    ghost output = { λ s. Some (standing_text s) };

    fn fmt<W: fmt::Write>(&self, f: &mut fmt::Formatter<W>) -> fmt::Result {
        match *self {
            Standing::Kept => write!(f, "kept"),
            Standing::Violated(violation) => write!(f, "{violation}"),
            Standing::Unplaced(lowest) => write!(f, "unplaced {lowest}"),
        }
    }
}

impl fmt::Display for BlockVerdict {
    ghost output = { λ v. Some (block_verdict_text v) };

    fn fmt<W: fmt::Write>(&self, f: &mut fmt::Formatter<W>) -> fmt::Result {
        write!(f, "block {} {}", self.block, self.standing)
    }
}
