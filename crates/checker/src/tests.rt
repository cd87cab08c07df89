// Blocks that a schedule keeps or breaks. Latencies: integer 1 1, load 2 4, compare 1 2; two slots that take all classes.
use crate::checking::check as verdict;
use crate::verdict::Verdict;
use blocks::{Blocks, Bounds, Description, Slot, Slots};
use opcodes::{Action, BinaryOpcode, Condition};
use operations::{Dependence, Opcode, Operand, RawOperation, UpToTwo, Violation};
use registers::{GeneralName, Place, PredicateName, RegisterName};
use std::alloc::Global;
use std::test::Fail;

fn machine() -> Result<Description, Fail> {
    let Some(slot) = Slot::new(true, true, true) else {
        return Err(Fail::new("a slot takes a class"));
    };
    let mut slots = Slots::new(slot);
    slots.add(slot)?;
    Ok(Description {
        slots,
        integer: Bounds::new(1, 1)?,
        load: Bounds::new(2, 4)?,
        compare: Bounds::new(1, 2)?,
    })
}

fn r(n: u8) -> RegisterName {
    RegisterName::General(GeneralName::Static(n))
}

fn p(n: u8) -> RegisterName {
    RegisterName::Predicate(PredicateName::Static(n))
}

fn raw(
    opcode: Opcode,
    destinations: UpToTwo<RegisterName>,
    sources: UpToTwo<Operand>,
    guard: u8,
) -> RawOperation {
    RawOperation {
        opcode,
        guard: PredicateName::Static(guard),
        destinations,
        sources,
    }
}

fn load(to: u8, address: u8) -> RawOperation {
    raw(
        Opcode::Load,
        UpToTwo::One(r(to)),
        UpToTwo::One(Operand::Register(r(address))),
        1,
    )
}

fn store(address: u8, value: u8) -> RawOperation {
    raw(
        Opcode::Store,
        UpToTwo::Zero,
        UpToTwo::Two(Operand::Register(r(address)), Operand::Register(r(value))),
        1,
    )
}

fn binary(
    opcode: BinaryOpcode,
    to: u8,
    first: Operand,
    second: Operand,
    guard: u8,
) -> RawOperation {
    raw(
        Opcode::Binary(opcode),
        UpToTwo::One(r(to)),
        UpToTwo::Two(first, second),
        guard,
    )
}

// To p2 and p0.
fn compare(condition: Condition, action: Action, first: u8, second: Operand) -> RawOperation {
    raw(
        Opcode::Compare(condition, action, Action::Un),
        UpToTwo::Two(p(2), p(0)),
        UpToTwo::Two(Operand::Register(r(first)), second),
        1,
    )
}

fn put(blocks: &mut Blocks, operation: RawOperation, cycle: u16, slot: u8) -> Result<(), Fail> {
    let i = blocks.add(0, operation)?;
    blocks.place(0, i, cycle, slot)?;
    Ok(())
}

fn fresh(heap: Global) -> Result<Blocks, Fail> {
    let blocks = Blocks::new(heap, machine()?)?;
    Ok(blocks)
}

// What a violated dependence names: its kind, its place, the two operations and the least cycle.
fn named(answer: Verdict) -> Result<Violation, Fail> {
    match answer {
        Verdict::Violated(violation) => Ok(violation),
        Verdict::Kept => Err(Fail::new("kept")),
    }
}

#[test]
fn load_used_too_early(rt: HostRuntime) -> Result<(), Fail> {
    let mut blocks = fresh(rt.alloc())?;
    put(&mut blocks, load(1, 2), 0, 0)?;
    put(
        &mut blocks,
        binary(
            BinaryOpcode::Add,
            3,
            Operand::Register(r(1)),
            Operand::Literal(1),
            1,
        ),
        3,
        0,
    )?;
    let found = named(verdict(&blocks, 0)?)?;
    assert!(rt;
        matches!(found.dependence, Dependence::Flow)
            && found.first == 0
            && found.second == 1
            && found.least == 4
    );
    blocks.place(0, 1, 4, 0)?;
    assert!(rt; matches!(verdict(&blocks, 0)?, Verdict::Kept));
    Ok(())
}

#[test]
fn lost_sign(rt: HostRuntime) -> Result<(), Fail> {
    let mut blocks = fresh(rt.alloc())?;
    put(
        &mut blocks,
        compare(Condition::Less, Action::Un, 1, Operand::Literal(0)),
        0,
        0,
    )?;
    put(
        &mut blocks,
        binary(
            BinaryOpcode::Sub,
            5,
            Operand::Literal(0),
            Operand::Register(r(5)),
            2,
        ),
        2,
        0,
    )?;
    put(
        &mut blocks,
        compare(Condition::Less, Action::Un, 4, Operand::Literal(0)),
        1,
        0,
    )?;
    let found = named(verdict(&blocks, 0)?)?;
    assert!(rt; found.second == 2 && found.least == 2);
    blocks.place(0, 2, 2, 1)?;
    assert!(rt; matches!(verdict(&blocks, 0)?, Verdict::Kept));
    Ok(())
}

#[test]
fn store_and_load_in_one_cycle(rt: HostRuntime) -> Result<(), Fail> {
    let mut blocks = fresh(rt.alloc())?;
    put(&mut blocks, store(1, 2), 0, 1)?;
    put(&mut blocks, load(3, 1), 0, 0)?;
    let found = named(verdict(&blocks, 0)?)?;
    assert!(rt;
        matches!(found.dependence, Dependence::Memory)
            && matches!(found.place, Place::Memory)
            && found.least == 1
    );
    blocks.lift(0, 1)?;
    blocks.place(0, 0, 0, 0)?;
    blocks.place(0, 1, 0, 1)?;
    assert!(rt; matches!(verdict(&blocks, 0)?, Verdict::Kept));
    Ok(())
}

#[test]
fn results_that_land_together(rt: HostRuntime) -> Result<(), Fail> {
    let mut blocks = fresh(rt.alloc())?;
    put(
        &mut blocks,
        compare(Condition::Equal, Action::On, 1, Operand::Register(r(2))),
        0,
        0,
    )?;
    put(
        &mut blocks,
        compare(Condition::Equal, Action::On, 3, Operand::Register(r(4))),
        0,
        1,
    )?;
    let found = named(verdict(&blocks, 0)?)?;
    assert!(rt;
        matches!(found.dependence, Dependence::Output)
            && found.first == 0
            && found.second == 1
            && found.least == 2
    );
    Ok(())
}

#[test]
fn refused(rt: HostRuntime) -> Result<(), Fail> {
    let mut blocks = fresh(rt.alloc())?;
    assert!(rt; matches!(verdict(&blocks, 15)?, Verdict::Kept));
    put(&mut blocks, load(1, 2), 0, 0)?;
    let _ = blocks.add(0, load(1, 2))?;
    let _ = blocks.add(0, load(1, 2))?;
    match verdict(&blocks, 0) {
        Ok(_) => return Err(Fail::new("not all are placed")),
        Err(refusal) => assert!(rt;
            refusal.number() == 12 && matches!(refusal, operations::Refusal::Unplaced(1))
        ),
    }
    match verdict(&blocks, 16) {
        Ok(_) => Err(Fail::new("there is no block 16")),
        Err(refusal) => {
            assert!(rt; refusal.number() == 2);
            Ok(())
        },
    }
}
