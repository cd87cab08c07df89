// Opcodes as they are written.
ghost use Rattle.std.specs.Prelude.{◌≡◌, ◌++◌, codes};
ghost use Rattle.opcodes.specs.Texts.{condition_text, action_text};
ghost use Rattle.lines.specs.Begins.{Begins};
ghost use Rattle.lines.specs.declared.written.Token.TheVariants as token;
ghost use Rattle.lines.specs.Tokens.{TokenAt};

use crate::tables::begins;
use crate::words::after_word;
use opcodes::{Action, BinaryOpcode, Condition, UnaryOpcode};
use operations::Opcode;

// The store comes behind the longer words that begin with S.
const OPCODES: [(Opcode, &'static [u8]); 16] = [
    (Opcode::Binary(BinaryOpcode::Add), b"ADD.W"),
    (Opcode::Binary(BinaryOpcode::Sub), b"SUB.W"),
    (Opcode::Binary(BinaryOpcode::And), b"AND.W"),
    (Opcode::Binary(BinaryOpcode::Or), b"OR.W"),
    (Opcode::Binary(BinaryOpcode::Xor), b"XOR.W"),
    (Opcode::Binary(BinaryOpcode::Shl), b"SHL.W"),
    (Opcode::Binary(BinaryOpcode::Shr), b"SHR.W"),
    (Opcode::Binary(BinaryOpcode::Shra), b"SHRA.W"),
    (Opcode::Binary(BinaryOpcode::Min), b"MIN.W"),
    (Opcode::Binary(BinaryOpcode::Max), b"MAX.W"),
    (Opcode::Binary(BinaryOpcode::Minl), b"MINL.W"),
    (Opcode::Binary(BinaryOpcode::Maxl), b"MAXL.W"),
    (Opcode::Unary(UnaryOpcode::Abs), b"ABS.W"),
    (Opcode::Unary(UnaryOpcode::Move), b"MOVE.W"),
    (Opcode::Load, b"L"),
    (Opcode::Store, b"S"),
];

const CONDITIONS: [(Condition, &'static [u8]); 12] = [
    (Condition::Never, b"FA."),
    (Condition::Equal, b"=."),
    (Condition::Less, b"<."),
    (Condition::LessEqual, b"<=."),
    (Condition::LogicalLess, b"<<."),
    (Condition::LogicalLessEqual, b"<<=."),
    (Condition::Always, b"TR."),
    (Condition::NotEqual, b"<>."),
    (Condition::GreaterEqual, b">=."),
    (Condition::Greater, b">."),
    (Condition::LogicalGreaterEqual, b">>=."),
    (Condition::LogicalGreater, b">>."),
];

const ACTIONS: [(Action, &'static [u8]); 8] = [
    (Action::Un, b"UN"),
    (Action::Uc, b"UC"),
    (Action::Cn, b"CN"),
    (Action::Cc, b"CC"),
    (Action::On, b"ON"),
    (Action::Oc, b"OC"),
    (Action::An, b"AN"),
    (Action::Ac, b"AC"),
];

// The condition at the front of `text`, and what follows the point behind it.
fn condition<'a>(text: &'a [u8]) -> Option<(Condition, &'a [u8])>
    ensures { Begins (λ k rest. text.now ≡ (condition_text k ++ codes ".") ++ rest) result }
{
    begins(&CONDITIONS, text)
}

fn action<'a>(text: &'a [u8]) -> Option<(Action, &'a [u8])>
    ensures { Begins (λ a rest. text.now ≡ action_text a ++ rest) result }
{
    begins(&ACTIONS, text)
}

// The compare whose text up to the condition stands before `text`.
fn compare<'a>(text: &'a [u8]) -> Option<(Opcode, &'a [u8])>
    ensures { Begins (λ o rest. TokenAt (codes "CMPP.W." ++ text.now) (token.Opcode o) rest) result }
{
    let (when, actions) = condition(text)?;
    let (first, point) = action(actions)?;
    let (second, rest) = action(after_word(point, b".")?)?;
    after_word(rest, b"(")?;
    Some((Opcode::Compare(when, first, second), rest))
}

// The opcode at the front of `text`, and the bracket behind it with what follows.
pub(crate) fn opcode<'a>(text: &'a [u8]) -> Option<(Opcode, &'a [u8])>
    ensures { Begins (λ o rest. TokenAt text.now (token.Opcode o) rest) result }
{
    if let Some(after) = after_word(text, b"CMPP.W.") {
        return compare(after);
    }
    let (opcode, rest) = begins(&OPCODES, text)?;
    after_word(rest, b"(")?;
    Some((opcode, rest))
}
