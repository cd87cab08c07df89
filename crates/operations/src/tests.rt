// Operations handed in: what is taken, what is refused, and their texts.
use crate::operation::Operation;
use crate::raw::{Opcode, Operand, RawOperation, UpToTwo};
use opcodes::{Action, BinaryOpcode, Condition, UnaryOpcode};
use registers::{GeneralName, Place, PredicateName, RegisterName};
use std::test::Fail;

fn r(n: u8) -> RegisterName {
    RegisterName::General(GeneralName::Static(n))
}

fn p(n: u8) -> RegisterName {
    RegisterName::Predicate(PredicateName::Static(n))
}

fn rp(n: u8) -> RegisterName {
    RegisterName::Predicate(PredicateName::Rotating(n))
}

fn reg(n: u8) -> Operand {
    Operand::Register(r(n))
}

fn raw(
    opcode: Opcode,
    destinations: UpToTwo<RegisterName>,
    sources: UpToTwo<Operand>,
) -> RawOperation {
    RawOperation {
        opcode,
        guard: PredicateName::Static(1),
        destinations,
        sources,
    }
}

const ADD: Opcode = Opcode::Binary(BinaryOpcode::Add);

const ABS: Opcode = Opcode::Unary(UnaryOpcode::Abs);

const LESS: Opcode = Opcode::Compare(Condition::Less, Action::Un, Action::Uc);

// The number of the refusal; 0 where it is taken.
fn refusal(raw: RawOperation) -> u8 {
    match raw.typed() {
        Ok(_) => 0,
        Err(refusal) => refusal.number(),
    }
}

#[test]
fn missing_registers(rt: HostRuntime) {
    let two = UpToTwo::Two(reg(31), reg(0));
    assert_eq!(rt; refusal(raw(ADD, UpToTwo::One(r(31)), two)), 0);
    assert_eq!(rt; refusal(raw(ADD, UpToTwo::One(r(32)), two)), 2);
    assert_eq!(rt;
        refusal(raw(ADD, UpToTwo::One(r(1)), UpToTwo::Two(reg(1), reg(255)))),
        2
    );
    // a missing register comes before operands that do not fit
    assert_eq!(rt; refusal(raw(ADD, UpToTwo::One(p(32)), UpToTwo::Zero)), 2);
    let mut guarded = raw(ADD, UpToTwo::One(r(1)), two);
    guarded.guard = PredicateName::Rotating(32);
    assert_eq!(rt; refusal(guarded), 2);
}

#[test]
fn wrong_operands(rt: HostRuntime) {
    let two = UpToTwo::Two(reg(1), Operand::Literal(-5));
    let one = UpToTwo::One(reg(1));
    let to = UpToTwo::One(r(3));
    assert_eq!(rt; refusal(raw(ADD, to, one)), 4);
    assert_eq!(rt; refusal(raw(ADD, UpToTwo::Zero, two)), 4);
    assert_eq!(rt; refusal(raw(ADD, UpToTwo::Two(r(3), r(4)), two)), 4);
    assert_eq!(rt; refusal(raw(ABS, to, two)), 4);
    assert_eq!(rt;
        refusal(raw(Opcode::Load, to, UpToTwo::One(Operand::Literal(8)))),
        4
    );
    assert_eq!(rt; refusal(raw(Opcode::Load, UpToTwo::One(p(3)), one)), 4);
    assert_eq!(rt;
        refusal(raw(Opcode::Store, to, UpToTwo::Two(reg(1), reg(2)))),
        4
    );
    assert_eq!(rt; refusal(raw(Opcode::Store, UpToTwo::Zero, two)), 4);
}

#[test]
fn destinations_of_a_compare(rt: HostRuntime) {
    let two = UpToTwo::Two(reg(1), reg(2));
    assert_eq!(rt; refusal(raw(LESS, UpToTwo::Two(p(2), p(2)), two)), 4);
    assert_eq!(rt; refusal(raw(LESS, UpToTwo::Two(rp(0), rp(0)), two)), 4);
    assert_eq!(rt; refusal(raw(LESS, UpToTwo::Two(r(1), p(2)), two)), 4);
    assert_eq!(rt; refusal(raw(LESS, UpToTwo::One(p(2)), two)), 4);
    assert_eq!(rt; refusal(raw(LESS, UpToTwo::Two(p(0), p(0)), two)), 0);
    assert_eq!(rt; refusal(raw(LESS, UpToTwo::Two(p(1), p(1)), two)), 0);
    assert_eq!(rt; refusal(raw(LESS, UpToTwo::Two(p(2), rp(2)), two)), 0);
}

#[test]
fn store_reads_both_registers(rt: HostRuntime) -> Result<(), Fail> {
    let store = raw(Opcode::Store, UpToTwo::Zero, UpToTwo::Two(reg(1), reg(2)));
    let operation = store.typed()?;
    let reads = operation.reads();
    assert!(rt; reads.guard.is_none() && reads.first.is_some() && reads.second.is_some());
    assert!(rt; reads.memory.is_none() && operation.writes().has(Place::Memory));
    Ok(())
}

#[test]
fn texts(rt: HostRuntime) -> Result<(), Fail> {
    let compare = Opcode::Compare(Condition::LogicalLessEqual, Action::On, Action::Ac);
    let mut raw = raw(
        compare,
        UpToTwo::Two(p(3), rp(4)),
        UpToTwo::Two(reg(1), Operand::Literal(-5)),
    );
    raw.guard = PredicateName::Rotating(0);
    let operation: Operation = raw.typed()?;
    let text = format!(in rt.alloc(); "{operation}")?;
    assert!(rt; text.as_str() == "p3, rp4 = CMPP.W.<<=.ON.AC(r1, -5) if rp0");
    Ok(())
}
