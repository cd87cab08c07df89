// A line of the program.
ghost use Rattle.std.specs.Prelude.{◌≡◌, IfSome, Some, decimal};
ghost use Rattle.lines.specs.Items.{left};
ghost use Rattle.lines.specs.Lines.{exit_text, position_text, program_line_text, ShortExit, ShortPosition, ShortProgram, IsProgramLine};
ghost use Rattle.lines.specs.Numbers.{Short};
ghost use Rattle.lines.specs.Said.{Reads, Whole, branch_text, ShortBranch, target_text, exit_behind, ShortPlaced};
ghost use Rattle.lines.specs.declared.written.ProgramLine.{ProgramLine};

use crate::expect::{expect, marks};
use crate::mark::Mark;
use crate::operation::operation;
use crate::place::Reader;
use crate::written::{ProgramLine, WrittenExit, WrittenPosition};

// The cycle and the slot of an operation, or that it has none: the outer Option says whether they could be read.
fn position(reader: &mut Reader) -> Option<Option<WrittenPosition>>
    ensures { Reads position_text ShortPosition (left reader.old) result (left reader.new) }
{
    // A copy reads ahead, here and below: what becomes of it differs, so there is no function for it.
    let mut ahead = *reader;
    if marks(&mut ahead, &[Mark::Unplaced]).is_some() {
        *reader = ahead;
        return Some(None);
    }
    let cycle = expect(reader)?;
    marks(reader, &[Mark::Colon])?;
    let slot = expect(reader)?;
    marks(reader, &[Mark::Space])?;
    Some(Some(WrittenPosition { cycle, slot }))
}

// A number, up to the end of the line.
pub(crate) fn last_number(reader: &mut Reader) -> Option<u64>
    ensures { Whole decimal Short (left reader.old) result }
{
    let number = expect(reader)?;
    reader.is_done().then_some(number)
}

// A space and a number, up to the end of the line.
fn target(reader: &mut Reader) -> Option<u64>
    ensures { Whole target_text Short (left reader.old) result }
{
    marks(reader, &[Mark::Space])?;
    last_number(reader)
}

// `if` has been read.
fn branch(reader: &mut Reader) -> Option<WrittenExit>
    ensures { Whole branch_text ShortBranch (left reader.old) result }
{
    marks(reader, &[Mark::Space])?;
    let predicate = expect(reader)?;
    marks(reader, &[Mark::Space, Mark::Goto])?;
    let target = target(reader)?;
    Some(WrittenExit::If { predicate, target })
}

// An exit, up to the end of the line.
fn exit(reader: &mut Reader) -> Option<WrittenExit>
    ensures { Whole exit_text ShortExit (left reader.old) result }
{
    match expect(reader)? {
        Mark::Halt => reader.is_done().then_some(WrittenExit::Halt),
        Mark::Next => reader.is_done().then_some(WrittenExit::Next),
        Mark::Goto => target(reader).map(WrittenExit::Goto),
        Mark::Loop => target(reader).map(WrittenExit::Loop),
        Mark::If => branch(reader),
        _ => None,
    }
}

// A space and an exit, up to the end of the line.
fn exit_line(reader: &mut Reader) -> Option<WrittenExit>
    ensures { Whole exit_behind ShortExit (left reader.old) result }
{
    marks(reader, &[Mark::Space])?;
    exit(reader)
}

// A cycle and slot, or that there are none, and an operation.
fn placed(reader: &mut Reader) -> Option<ProgramLine>
    ensures { Whole program_line_text ShortPlaced (left reader.old) result }
{
    let position = position(reader)?;
    let operation = operation(reader)?;
    Some(ProgramLine::Operation {
        position,
        operation,
    })
}

fn said(reader: &mut Reader) -> Option<ProgramLine>
    ensures { Whole program_line_text ShortProgram (left reader.old) result }
{
    let mut ahead = *reader;
    match expect(&mut ahead) {
        Some(Mark::Block) => target(&mut ahead).map(ProgramLine::Block),
        Some(Mark::Exit) => exit_line(&mut ahead).map(ProgramLine::Exit),
        _ => placed(reader),
    }
}

// What a line of the program says.
pub fn program_line(line: &[u8]) -> Option<ProgramLine>
    ensures sound { IfSome result (λ w. IsProgramLine line.now w) }
    ensures complete { (w : ProgramLine) → IsProgramLine line.now w → result ≡ Some w }
{
    said(&mut Reader::new(line))
}
