// What is printed of blocks.
use crate::sets::{print_block, print_set};
use blocks::{Blocks, Bounds, Description, RawExit, Slot, Slots};
use operations::{Opcode, Operand, RawOperation, Refusal, UpToTwo};
use registers::{GeneralName, PredicateName, RegisterName};
use std::test::Fail;

fn machine() -> Result<Description, Refusal> {
    let slots = Slots::new(Slot {
        integer: true,
        memory: true,
        compare: true,
    });
    Ok(Description {
        slots,
        integer: Bounds::new(1, 1)?,
        load: Bounds::new(2, 4)?,
        compare: Bounds::new(1, 2)?,
    })
}

fn r(n: u8) -> RegisterName {
    RegisterName::General(GeneralName::Static(n))
}

// A load and a store in block 2, and block 15 back to it.
fn filled(rt: HostRuntime) -> Result<Blocks, Fail> {
    let mut blocks = Blocks::new(rt.alloc(), machine()?)?;
    blocks.add(
        2,
        RawOperation {
            opcode: Opcode::Load,
            guard: PredicateName::Static(1),
            destinations: UpToTwo::One(r(1)),
            sources: UpToTwo::One(Operand::Register(r(2))),
        },
    )?;
    blocks.add(
        2,
        RawOperation {
            opcode: Opcode::Store,
            guard: PredicateName::Static(9),
            destinations: UpToTwo::Zero,
            sources: UpToTwo::Two(Operand::Register(r(2)), Operand::Register(r(1))),
        },
    )?;
    blocks.place(2, 0, 3, 0)?;
    blocks.exit(
        2,
        RawExit::If {
            predicate: PredicateName::Rotating(4),
            target: 7,
        },
    )?;
    blocks.exit(15, RawExit::Goto(2))?;
    Ok(blocks)
}

#[test]
fn used_blocks(rt: HostRuntime) -> Result<(), Fail> {
    let blocks = filled(rt)?;
    let text = print_set(rt.alloc(), &blocks)?;
    assert!(rt;
        text.as_str()
            == "block 2\n3:0 r1 = L(r2)\n- S(r2, r1) if p9\nexit if rp4 goto 7\nblock 15\nexit goto 2\n"
    );
    Ok(())
}

#[test]
fn one_block(rt: HostRuntime) -> Result<(), Fail> {
    let blocks = filled(rt)?;
    match print_block(rt.alloc(), &blocks, 14)? {
        Some(text) => assert!(rt; text.as_str() == "block 14\nexit halt\n"),
        None => assert!(rt; false),
    }
    assert!(rt; print_block(rt.alloc(), &blocks, 16)?.is_none());
    Ok(())
}
