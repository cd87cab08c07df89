// What is done to one block.
ghost use Rattle.std.specs.Prelude.{◌≡◌, ◌<◌, true, length, IfOk, Some, vec_len};
ghost use Rattle.blocks.specs.Steps.{Did};
ghost use Rattle.blocks.specs.Machine.{slots_of};
ghost use Rattle.blocks.specs.Entries.{position_at, placed, clash, occupied, free, class_at, put};
ghost use Rattle.blocks.specs.Model.{empty, with_entries, with_exit, topmost, add_step, place_step, lift_step};
ghost use Rattle.blocks.specs.View.{body_of};

use crate::block::Block;
use crate::description::Description;
use crate::exit::Exit;
use crate::position::{Entry, Position};
use operations::{RawOperation, Refusal};
use std::alloc::{AllocError, Global};

// How many operations a block may have.
const OPERATIONS: usize = 64;

// How many cycles a block may take.
pub const CYCLES: u16 = 1024;

impl Position {
    fn at(cycle: u16, slot: u8) -> Position
        requires { (cycle < 1024) × (slot < 8) }
        ensures { Some result ≡ position_at cycle slot }
    {
        Position { cycle, slot }
    }
}

// Whether the entry is placed there.
fn is_at(entry: &Entry, position: Position) -> bool
    ensures { result ≡ clash entry.now.position (Some position) }
{
    entry.position == Some(position)
}

// Whether another operation than that of number `own` is placed there.
fn occupied(entries: &[Entry], own: usize, position: Position) -> bool
    ensures { result ≡ occupied entries.now own position }
{
    entries
        .iter()
        .enumerate()
        .any(|(k, entry)| k != own && is_at(entry, position))
}

// The refusal of an operation for a block that may be full as well: the one whose row is above. By the numbers of the rows, for a
// derived order of so many cases would tell a proof nothing.
fn topmost(refusal: Refusal, full: bool) -> Refusal
    ensures { result ≡ topmost refusal full }
{
    if refusal.number() > Refusal::BlockFull.number() && full {
        Refusal::BlockFull
    } else {
        refusal
    }
}

impl Block {
    // An empty block, with room for all that it may get.
    pub(crate) fn new(heap: Global) -> Result<Block, AllocError>
        ensures { IfOk result (λ b. body_of b ≡ empty) }
    {
        let entries = Vec::with_capacity(heap, OPERATIONS)?;
        Ok(Block {
            entries,
            exit: Exit::Halt,
        })
    }

    pub(crate) fn add(&mut self, operation: RawOperation) -> Result<u8, Refusal>
        ensures { Did (body_of self.old) (body_of self.new) result (add_step (body_of self.old) operation) }
    {
        let count = self.entries.len();
        let full = count >= OPERATIONS;
        let operation = operation.typed().map_err(|refusal| topmost(refusal, full))?;
        if full {
            return Err(Refusal::BlockFull);
        }
        self.entries.push_reserved(Entry {
            operation,
            position: None,
        });
        // `as`, for the count is proved to fit: after `try_from` an error would be left that cannot come.
        Ok(count as u8)
    }

    // Puts operation `i` to a position that is free, or to none.
    fn put(&mut self, i: usize, position: Option<Position>)
        requires { (i < vec_len self.old.entries) × (free self.old.entries.items i position ≡ true) }
        ensures { body_of self.new ≡ with_entries (body_of self.old) (put self.old.entries.items i position) }
    {
        self.entries[i].position = position;
    }

    // Places the operation, or moves it.
    pub(crate) fn place(
        &mut self,
        description: &Description,
        operation: u8,
        cycle: u16,
        slot: u8,
    ) -> Result<(), Refusal>
        ensures { Did (body_of self.old) (body_of self.new) result (place_step (slots_of description.now.slots) (body_of self.old) operation cycle slot) }
    {
        let i = usize::from(operation);
        let entry = self.entries.get(i).ok_or(Refusal::NoSuch)?;
        if slot >= description.slots.count {
            return Err(Refusal::NoSuch);
        }
        if cycle >= CYCLES {
            return Err(Refusal::BeyondLimit);
        }
        if !description.takes(slot, entry.operation.class()) {
            return Err(Refusal::ClassNotTaken);
        }
        let position = Position::at(cycle, slot);
        if occupied(self.entries.as_slice(), i, position) {
            return Err(Refusal::Occupied);
        }
        self.put(i, Some(position));
        Ok(())
    }

    // Takes the operation from its place.
    pub(crate) fn lift(&mut self, operation: u8) -> Result<(), Refusal>
        ensures { Did (body_of self.old) (body_of self.new) result (lift_step (body_of self.old) operation) }
    {
        let i = usize::from(operation);
        let entry = self.entries.get(i).ok_or(Refusal::NoSuch)?;
        entry.position.ok_or(Refusal::Unplaced(operation))?;
        self.put(i, None);
        Ok(())
    }

    pub(crate) fn leave_by(&mut self, exit: Exit)
        ensures { body_of self.new ≡ with_exit (body_of self.old) exit }
    {
        self.exit = exit;
    }
}
