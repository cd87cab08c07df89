// A block written onto a text.
ghost use Rattle.std.specs.Prelude.{◌≡◌, ◌<◌, ◌≤◌, ◌++◌, string_bytes, OnOk, MatchOption};
ghost use Rattle.std.specs.List.{AllByRecursion};
ghost use Rattle.blocks.specs.Calls.{body_at};
ghost use Rattle.blocks.specs.Whole.{state_of};
ghost use Rattle.lines.specs.declared.written.ProgramLine.TheVariants as line;
ghost use Rattle.printing.specs.Sets.{line_ended, used, block_text};
ghost use Rattle.printing.specs.Printed.{Held, contents_of};

use crate::literals;
use crate::shown::{EntryLine, ExitLine};
use blocks::{Blocks, Entry, Exit};
use std::alloc::AllocError;

// What stands in a block.
#[derive(Clone, Copy)]
pub(crate) struct Contents<'a> {
    pub(crate) entries: &'a [Entry],
    pub(crate) exit: Exit,
}

// The line that a block begins with.
fn write_head(out: &mut String, block: u8) -> Result<(), AllocError>
    ensures { OnOk result (string_bytes out.new ≡ string_bytes out.old ++ line_ended (line.Block block)) }
{
    writeln!(out, "block {block}")
}

impl<'a> Contents<'a> {
    // Those of the block of that number, where there is one.
    pub(crate) fn of(blocks: &'a Blocks, block: u8) -> Option<Contents<'a>>
        ensures { MatchOption result (16 ≤ block) (λ b. (block < 16) × (contents_of b ≡ body_at (state_of blocks.now) block)) }
    {
        Some(Contents {
            entries: blocks.entries(block)?,
            exit: blocks.exit_of(block)?,
        })
    }

    // Whether there is an operation, or an exit other than halt.
    pub(crate) fn is_used(self) -> bool
        ensures { result ≡ used (contents_of self.entry) }
    {
        !self.entries.is_empty() || !matches!(self.exit, Exit::Halt)
    }

    // Writes them as the lines of that block.
    pub(crate) fn write(self, out: &mut String, block: u8) -> Result<(), AllocError>
        ensures { OnOk result ((string_bytes out.new ≡ string_bytes out.old ++ block_text block (contents_of self.entry)) × AllByRecursion Held (contents_of self.entry).entries) }
    {
        write_head(out, block)?;
        for entry in self.entries {
            literals::held(entry.operation.form);
            writeln!(out, "{}", EntryLine(*entry))?;
        }
        writeln!(out, "{}", ExitLine(self.exit))
    }
}
