// What a token says, where one of a kind is expected.
ghost use Rattle.std.specs.Prelude.{◌≡◌, pos, Some, ◌↔◌};
ghost use Rattle.lines.specs.Said.{operand_token};
ghost use Rattle.lines.specs.declared.written.Token.{Token};
ghost use Rattle.lines.specs.declared.written.Token.TheVariants as token;
ghost use Rattle.lines.specs.declared.written.WrittenRegister.TheVariants as name;

use crate::mark::Mark;
use crate::written::{Token, WrittenOperand, WrittenPredicate, WrittenRegister};
use operations::Opcode;

// What a token may say.
pub(crate) trait Said {
    // The token that says it.
    ghost token: { Self → Token };

    fn from_token(by: Token) -> Option<Self>
        ensures { (x : Self) → (result ≡ Some x) ↔ (by ≡ token x) };
}

impl Said for WrittenRegister {
    ghost token = { token.Register };

    fn from_token(by: Token) -> Option<WrittenRegister> {
        match by {
            Token::Register(name) => Some(name),
            _ => None,
        }
    }
}

impl Said for WrittenPredicate {
    ghost token = { λ p. token.Register (name.Predicate p) };

    fn from_token(by: Token) -> Option<WrittenPredicate> {
        match by {
            Token::Register(WrittenRegister::Predicate(name)) => Some(name),
            _ => None,
        }
    }
}

// A literal that is not negative.
impl Said for u64 {
    ghost token = { λ n. token.Literal (pos n) };

    fn from_token(by: Token) -> Option<u64> {
        match by {
            Token::Literal(value) => u64::try_from(value).ok(),
            _ => None,
        }
    }
}

impl Said for WrittenOperand {
    ghost token = { operand_token };

    fn from_token(by: Token) -> Option<WrittenOperand> {
        match by {
            Token::Register(name) => Some(WrittenOperand::Register(name)),
            Token::Literal(value) => Some(WrittenOperand::Literal(value)),
            _ => None,
        }
    }
}

impl Said for Opcode {
    ghost token = { token.Opcode };

    fn from_token(by: Token) -> Option<Opcode> {
        match by {
            Token::Opcode(opcode) => Some(opcode),
            _ => None,
        }
    }
}

impl Said for Mark {
    ghost token = { token.Mark };

    fn from_token(by: Token) -> Option<Mark> {
        match by {
            Token::Mark(mark) => Some(mark),
            _ => None,
        }
    }
}
