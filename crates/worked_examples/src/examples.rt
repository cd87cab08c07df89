// The operations of the examples, as they are handed in.
use opcodes::{Action, BinaryOpcode, Condition};
use operations::{Opcode, Operand, RawOperation, UpToTwo};
use registers::{GeneralName, PredicateName, RegisterName};

// p1: it always reads 1.
const ALWAYS: PredicateName = PredicateName::Static(1);

fn r(n: u8) -> Operand {
    Operand::Register(RegisterName::General(GeneralName::Static(n)))
}

// `pN, p0 = CMPP.W.CONDITION.ACTION.UN(first, second) if guard`; what goes to p0 is dropped.
fn compare(
    n: u8,
    condition: Condition,
    action: Action,
    first: Operand,
    second: Operand,
    guard: PredicateName,
) -> RawOperation {
    RawOperation {
        opcode: Opcode::Compare(condition, action, Action::Un),
        guard,
        destinations: UpToTwo::Two(
            RegisterName::Predicate(PredicateName::Static(n)),
            RegisterName::Predicate(PredicateName::Static(0)),
        ),
        sources: UpToTwo::Two(first, second),
    }
}

// p2 = (a < b) or not (c > d) or (a < c) or (b > d), with a, b, c, d in r1 to r4. `c <= d` stands for not (c > d).
pub fn or_reduction() -> [RawOperation; 5] {
    let zero = Operand::Literal(0);
    [
        compare(2, Condition::Never, Action::Un, zero, zero, ALWAYS),
        compare(2, Condition::Less, Action::On, r(1), r(2), ALWAYS),
        compare(2, Condition::LessEqual, Action::On, r(3), r(4), ALWAYS),
        compare(2, Condition::Less, Action::On, r(1), r(3), ALWAYS),
        compare(2, Condition::Greater, Action::On, r(2), r(4), ALWAYS),
    ]
}

// p3 = p2: the comparison always holds, so UN writes the guard.
pub fn copy_predicate() -> RawOperation {
    let zero = Operand::Literal(0);
    compare(
        3,
        Condition::Equal,
        Action::Un,
        zero,
        zero,
        PredicateName::Static(2),
    )
}

// The sign of the offset in r1 is kept in p2, and r5, its magnitude, is negated under p2.
pub fn signed_offset() -> [RawOperation; 2] {
    let zero = Operand::Literal(0);
    let to = RegisterName::General(GeneralName::Static(5));
    [
        compare(2, Condition::Less, Action::Un, r(1), zero, ALWAYS),
        RawOperation {
            opcode: Opcode::Binary(BinaryOpcode::Sub),
            guard: PredicateName::Static(2),
            destinations: UpToTwo::One(to),
            sources: UpToTwo::Two(zero, r(5)),
        },
    ]
}
