// Every opcode and condition at the edges of a word.
mod table;

use crate::compare::{Action, Condition};
use crate::integer::{BinaryOpcode, UnaryOpcode};
use std::process::Abort;

fn binary(rt: &impl Abort, opcode: BinaryOpcode, expected: &[[u32; 8]; 8]) {
    for i in 0..8usize {
        for j in 0..8usize {
            assert_eq!(rt;
                opcode.result(table::VALUES[i], table::VALUES[j]),
                expected[i][j]
            );
        }
    }
}

fn condition(rt: &impl Abort, condition: Condition, expected: &[[bool; 8]; 8]) {
    for i in 0..8usize {
        for j in 0..8usize {
            assert_eq!(rt;
                condition.holds(table::VALUES[i], table::VALUES[j]),
                expected[i][j]
            );
        }
    }
}

#[test]
fn binary_opcodes(rt: HostRuntime) {
    binary(&rt, BinaryOpcode::Add, &table::ADD);
    binary(&rt, BinaryOpcode::Sub, &table::SUB);
    binary(&rt, BinaryOpcode::And, &table::AND);
    binary(&rt, BinaryOpcode::Or, &table::OR);
    binary(&rt, BinaryOpcode::Xor, &table::XOR);
    binary(&rt, BinaryOpcode::Shl, &table::SHL);
    binary(&rt, BinaryOpcode::Shr, &table::SHR);
    binary(&rt, BinaryOpcode::Shra, &table::SHRA);
    binary(&rt, BinaryOpcode::Min, &table::MIN);
    binary(&rt, BinaryOpcode::Max, &table::MAX);
    binary(&rt, BinaryOpcode::Minl, &table::MINL);
    binary(&rt, BinaryOpcode::Maxl, &table::MAXL);
}

#[test]
fn unary_opcodes(rt: HostRuntime) {
    for i in 0..8usize {
        assert_eq!(rt; UnaryOpcode::Abs.result(table::VALUES[i]), table::ABS[i]);
        assert_eq!(rt; UnaryOpcode::Move.result(table::VALUES[i]), table::MOVE[i]);
    }
}

#[test]
fn conditions(rt: HostRuntime) {
    condition(&rt, Condition::Never, &table::NEVER);
    condition(&rt, Condition::Equal, &table::EQUAL);
    condition(&rt, Condition::Less, &table::LESS);
    condition(&rt, Condition::LessEqual, &table::LESS_EQUAL);
    condition(&rt, Condition::LogicalLess, &table::LOGICAL_LESS);
    condition(&rt, Condition::LogicalLessEqual, &table::LOGICAL_LESS_EQUAL);
    condition(&rt, Condition::Always, &table::ALWAYS);
    condition(&rt, Condition::NotEqual, &table::NOT_EQUAL);
    condition(&rt, Condition::GreaterEqual, &table::GREATER_EQUAL);
    condition(&rt, Condition::Greater, &table::GREATER);
    condition(
        &rt,
        Condition::LogicalGreaterEqual,
        &table::LOGICAL_GREATER_EQUAL,
    );
    condition(&rt, Condition::LogicalGreater, &table::LOGICAL_GREATER);
}

// The writes of an action at (guard, c) = (0, 0), (0, 1), (1, 0), (1, 1).
fn action(rt: &impl Abort, action: Action, expected: [Option<bool>; 4]) {
    assert_eq!(rt; action.write(false, false), expected[0]);
    assert_eq!(rt; action.write(false, true), expected[1]);
    assert_eq!(rt; action.write(true, false), expected[2]);
    assert_eq!(rt; action.write(true, true), expected[3]);
}

#[test]
fn actions(rt: HostRuntime) {
    let zero = Some(false);
    let one = Some(true);
    action(&rt, Action::Un, [zero, zero, zero, one]);
    action(&rt, Action::Uc, [zero, zero, one, zero]);
    action(&rt, Action::Cn, [None, None, zero, one]);
    action(&rt, Action::Cc, [None, None, one, zero]);
    action(&rt, Action::On, [None, None, None, one]);
    action(&rt, Action::Oc, [None, None, one, None]);
    action(&rt, Action::An, [None, None, zero, None]);
    action(&rt, Action::Ac, [None, None, None, zero]);
}
