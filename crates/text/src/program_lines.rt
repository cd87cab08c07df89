// What the lines of a program do to the blocks.
ghost use Rattle.std.specs.Prelude.{◌≡◌, ℕ, ◌<◌, ◌≤◌, Ok, Err, Result, MatchResult};
ghost use Rattle.operations.specs.declared.refusal.Refusal.{Refusal};
ghost use Rattle.text.specs.declared.stage.Stage.TheVariants.{Open};
ghost use Rattle.blocks.specs.Whole.{state_of};
ghost use Rattle.lines.specs.Lines.{IsProgramLine};
ghost use Rattle.text.specs.Programs.{Reading, in_open, above, slot_there, placed_at, operation_call, block_line, operation_line, exit_line, program_step};
ghost use Rattle.text.specs.Views.{reading_of};

use crate::loading::Loading;
use crate::stage::Stage;
use crate::taking::ByLines;
use blocks::{BLOCKS, Blocks, CYCLES, SLOTS};
use lines::{ProgramLine, WrittenExit, WrittenOperation, WrittenPosition, program_line};
use operations::Refusal;

impl Stage {
    // Whether a block of that number may come next.
    fn above(self, number: u64) -> bool
        ensures { result ≡ above self number }
    {
        match self {
            Stage::Start => true,
            Stage::Open(last) | Stage::Ended(last) => number > u64::from(last),
        }
    }
}

impl Stage {
    // The block that lines are read into.
    fn open(self) -> Result<u8, Refusal>
        ensures { MatchResult result (λ b. self ≡ Open b) (λ e. (f : ℕ → Result Reading Refusal) → in_open self f ≡ Err e) }
    {
        match self {
            Stage::Open(block) => Ok(block),
            Stage::Start | Stage::Ended(_) => Err(Refusal::Unreadable),
        }
    }
}

fn has_slot(blocks: &Blocks, position: Option<WrittenPosition>) -> bool
    ensures { result ≡ slot_there (state_of blocks.now) position }
{
    let slots = blocks.description().slots.count;
    position.is_none_or(|position| position.slot < u64::from(slots))
}

fn place(
    blocks: &mut Blocks,
    block: u8,
    operation: u8,
    position: Option<WrittenPosition>,
) -> Result<(), Refusal>
    ensures { MatchResult result (λ _. placed_at (state_of blocks.old) block operation position ≡ Ok (tt, state_of blocks.new)) (λ e. placed_at (state_of blocks.old) block operation position ≡ Err e) }
{
    match position {
        // `as`, for after `min` they are proved to fit.
        Some(position) => blocks.place(
            block,
            operation,
            position.cycle.min(u64::from(CYCLES)) as u16,
            position.slot.min(u64::from(SLOTS)) as u8,
        ),
        None => Ok(()),
    }
}

fn add(
    blocks: &mut Blocks,
    block: u8,
    position: Option<WrittenPosition>,
    operation: WrittenOperation,
) -> Result<(), Refusal>
    ensures { MatchResult result (λ _. operation_call (state_of blocks.old) block position operation ≡ Ok (tt, state_of blocks.new)) (λ e. operation_call (state_of blocks.old) block position operation ≡ Err e) }
{
    if !has_slot(blocks, position) {
        return Err(Refusal::NoSuch);
    }
    let number = blocks.add(block, operation.raw())?;
    if !operation.literals_held() {
        return Err(Refusal::BeyondLimit);
    }
    place(blocks, block, number, position)
}

impl Loading {
    fn block(&mut self, number: u64) -> Result<(), Refusal>
        ensures { MatchResult result (λ _. block_line (reading_of self.old) number ≡ Ok (reading_of self.new)) (λ e. block_line (reading_of self.old) number ≡ Err e) }
    {
        if !self.stage.above(number) {
            return Err(Refusal::Unreadable);
        }
        // With `try_from` the bound would still have to be tested; below it the number is proved to fit.
        if number >= u64::from(BLOCKS) {
            return Err(Refusal::NoSuch);
        }
        self.stage = Stage::Open(number as u8);
        Ok(())
    }

    fn operation(
        &mut self,
        position: Option<WrittenPosition>,
        operation: WrittenOperation,
    ) -> Result<(), Refusal>
        ensures { MatchResult result (λ _. operation_line (reading_of self.old) position operation ≡ Ok (reading_of self.new)) (λ e. operation_line (reading_of self.old) position operation ≡ Err e) }
    {
        let block = self.stage.open()?;
        add(&mut self.blocks, block, position, operation)
    }

    fn exit(&mut self, exit: WrittenExit) -> Result<(), Refusal>
        ensures { MatchResult result (λ _. exit_line (reading_of self.old) exit ≡ Ok (reading_of self.new)) (λ e. exit_line (reading_of self.old) exit ≡ Err e) }
    {
        let block = self.stage.open()?;
        self.blocks.exit(block, exit.raw())?;
        self.stage = Stage::Ended(block);
        Ok(())
    }
}

impl ByLines for Loading {
    type Said = ProgramLine;

    ghost State = { Reading };

    ghost view = { reading_of };

    ghost Line = { IsProgramLine };

    ghost step = { program_step };

    fn said(line: &[u8]) -> Option<ProgramLine> {
        program_line(line)
    }

    fn step(&mut self, said: ProgramLine) -> Result<(), Refusal> {
        match said {
            ProgramLine::Block(number) => self.block(number),
            ProgramLine::Operation {
                position,
                operation,
            } => self.operation(position, operation),
            ProgramLine::Exit(exit) => self.exit(exit),
        }
    }
}
