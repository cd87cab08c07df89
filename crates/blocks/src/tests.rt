// The calls at their limits.
use crate::blocks::Blocks;
use crate::description::{Bounds, Description, Slot, Slots};
use crate::exit::{Exit, RawExit};
use operations::{Opcode, Operand, RawOperation, Refusal, UpToTwo};
use registers::{GeneralName, PredicateName, RegisterName};
use std::test::Fail;

// The row of a refusal, or 0.
fn row<T: Drop>(answer: Result<T, Refusal>) -> u8 {
    answer.err().map_or(0, |refusal| refusal.number())
}

// A load to the register of that number.
fn load(number: u8, guard: u8) -> RawOperation {
    RawOperation {
        opcode: Opcode::Load,
        guard: PredicateName::Static(guard),
        destinations: UpToTwo::One(RegisterName::General(GeneralName::Static(number))),
        sources: UpToTwo::One(Operand::Register(RegisterName::General(GeneralName::Rotating(0)))),
    }
}

// A load from a literal, which is none.
fn unfit() -> RawOperation {
    RawOperation {
        sources: UpToTwo::One(Operand::Literal(4)),
        ..load(1, 1)
    }
}

// Slot 0 takes memory operations, slot 1 integer operations.
fn machine() -> Result<Description, Refusal> {
    let mut slots = Slots::new(Slot {
        integer: false,
        memory: true,
        compare: false,
    });
    slots.add(Slot {
        integer: true,
        memory: false,
        compare: false,
    })?;
    Ok(Description {
        slots,
        integer: Bounds::new(1, 1)?,
        load: Bounds::new(2, 31)?,
        compare: Bounds::new(1, 2)?,
    })
}

#[test]
fn describes(rt: HostRuntime) {
    assert!(rt; Slot::new(false, false, false).is_none());
    assert_eq!(rt; row(Bounds::new(0, 1)), 5);
    assert_eq!(rt; row(Bounds::new(31, 31)), 0);
    assert_eq!(rt; row(Bounds::new(31, 32)), 5);
    assert_eq!(rt; row(Bounds::new(3, 2)), 5);
}

// Sixteen empty blocks of that machine.
fn blocks(rt: HostRuntime) -> Result<Blocks, Fail> {
    let machine = machine().map_err(|_| Fail::new("no machine"))?;
    Ok(Blocks::new(rt.alloc(), machine)?)
}

// How many operations the block has.
fn count(blocks: &Blocks, block: u8) -> usize {
    blocks.entries(block).map_or(0, |entries| entries.len())
}

// The cycle of the block's first operation, where it is placed.
fn first_cycle(blocks: &Blocks, block: u8) -> Option<u16> {
    Some(blocks.entries(block)?.first()?.position?.cycle)
}

#[test]
fn adds(rt: HostRuntime) -> Result<(), Fail> {
    let mut blocks = blocks(rt)?;
    assert_eq!(rt; row(blocks.add(16, load(1, 1))), 2);
    assert_eq!(rt; row(blocks.add(15, load(32, 1))), 2);
    assert_eq!(rt; row(blocks.add(15, load(31, 32))), 2);
    assert_eq!(rt; row(blocks.add(15, unfit())), 4);
    assert_eq!(rt; count(&blocks, 15), 0);
    for number in 0..64u8 {
        assert_eq!(rt; blocks.add(15, load(31, 31)).ok(), Some(number));
    }
    assert_eq!(rt; row(blocks.add(15, load(31, 31))), 3);
    assert_eq!(rt; row(blocks.add(15, unfit())), 3);
    assert_eq!(rt; row(blocks.add(15, load(32, 1))), 2);
    assert_eq!(rt; count(&blocks, 15), 64);
    Ok(())
}

#[test]
fn places(rt: HostRuntime) -> Result<(), Fail> {
    let mut blocks = blocks(rt)?;
    assert_eq!(rt; row(blocks.add(3, load(1, 1))), 0);
    assert_eq!(rt; row(blocks.add(3, load(2, 1))), 0);
    assert_eq!(rt; row(blocks.lift(3, 0)), 12);
    assert_eq!(rt; row(blocks.place(16, 0, 0, 0)), 2);
    assert_eq!(rt; row(blocks.place(3, 2, 0, 0)), 2);
    assert_eq!(rt; row(blocks.place(3, 0, 1024, 2)), 2);
    assert_eq!(rt; row(blocks.place(3, 0, 1024, 1)), 5);
    assert_eq!(rt; row(blocks.place(3, 0, 1023, 1)), 6);
    assert_eq!(rt; first_cycle(&blocks, 3), None);
    assert_eq!(rt; row(blocks.place(3, 0, 1023, 0)), 0);
    assert_eq!(rt; row(blocks.place(3, 0, 1023, 0)), 0);
    assert_eq!(rt; row(blocks.place(3, 1, 1023, 0)), 7);
    assert_eq!(rt; row(blocks.place(3, 0, 7, 0)), 0);
    assert_eq!(rt; row(blocks.place(3, 1, 1023, 0)), 0);
    assert_eq!(rt; first_cycle(&blocks, 3), Some(7));
    assert_eq!(rt; row(blocks.lift(3, 0)), 0);
    assert_eq!(rt; first_cycle(&blocks, 3), None);
    Ok(())
}

// The block that the exit of the block names, where it names one.
fn target(blocks: &Blocks, block: u8) -> Option<u8> {
    match blocks.exit_of(block)? {
        Exit::Halt | Exit::Next => None,
        Exit::Goto(to) | Exit::Loop(to) => Some(to.number),
        Exit::If { target, .. } => Some(target.number),
    }
}

#[test]
fn leads(rt: HostRuntime) -> Result<(), Fail> {
    let mut blocks = blocks(rt)?;
    assert_eq!(rt; row(blocks.exit(14, RawExit::Next)), 0);
    assert_eq!(rt; row(blocks.exit(15, RawExit::Next)), 2);
    assert_eq!(rt; row(blocks.exit(16, RawExit::Halt)), 2);
    assert_eq!(rt; row(blocks.exit(15, RawExit::Goto(15))), 0);
    assert_eq!(rt; row(blocks.exit(15, RawExit::Goto(16))), 2);
    assert_eq!(rt; row(blocks.exit(0, RawExit::Loop(16))), 2);
    assert_eq!(rt; row(blocks.exit(15, RawExit::Loop(0))), 2);
    let branch = RawExit::If {
        predicate: PredicateName::Rotating(31),
        target: 15,
    };
    assert_eq!(rt; row(blocks.exit(14, branch)), 0);
    assert_eq!(rt; row(blocks.exit(15, branch)), 2);
    let missing = RawExit::If {
        predicate: PredicateName::Static(32),
        target: 15,
    };
    assert_eq!(rt; row(blocks.exit(14, missing)), 2);
    assert_eq!(rt; target(&blocks, 14), Some(15));
    assert_eq!(rt; target(&blocks, 13), None);
    Ok(())
}
