// The items of a line as they are written.
ghost use Rattle.lines.specs.Begins.{Begins};
ghost use Rattle.lines.specs.Tokens.{TokenAt};

use crate::literal::literal;
use crate::marks::mark;
use crate::names::name;
use crate::opcode::opcode;
use crate::written::Token;

// The item at the front of `text`, and what follows it.
pub(crate) fn token<'a>(text: &'a [u8]) -> Option<(Token, &'a [u8])>
    ensures { Begins (TokenAt text.now) result }
{
    mark(text)
        .map(|(m, rest)| (Token::Mark(m), rest))
        .or_else(|| name(text).map(|(x, rest)| (Token::Register(x), rest)))
        .or_else(|| literal(text).map(|(z, rest)| (Token::Literal(z), rest)))
        .or_else(|| opcode(text).map(|(o, rest)| (Token::Opcode(o), rest)))
}
