// The items of a line.
ghost use Rattle.std.specs.Prelude.{◌≡◌};
ghost use Rattle.lines.specs.Items.{item_token, item_text, item_place};

use crate::mark::Mark;
use crate::written::{Token, WrittenRegister};
use operations::Opcode;

// What an item says, its part of the line, and where in the line that part begins. Each case has both: an item is one of these, as users of the reader match it.
#[derive(Clone, Copy)]
pub enum Item<'a> {
    Register {
        name: WrittenRegister,
        text: &'a [u8],
        at: usize,
    },
    Literal {
        value: i64,
        text: &'a [u8],
        at: usize,
    },
    Opcode {
        opcode: Opcode,
        text: &'a [u8],
        at: usize,
    },
    Mark {
        mark: Mark,
        text: &'a [u8],
        at: usize,
    },
}

impl<'a> Item<'a> {
    // What it says.
    pub(crate) fn token(self) -> Token
        ensures { result ≡ item_token self.entry }
    {
        match self {
            Item::Register { name, .. } => Token::Register(name),
            Item::Literal { value, .. } => Token::Literal(value),
            Item::Opcode { opcode, .. } => Token::Opcode(opcode),
            Item::Mark { mark, .. } => Token::Mark(mark),
        }
    }

    pub(crate) fn new(token: Token, text: &'a [u8], at: usize) -> Item<'a>
        ensures says { item_token result ≡ token }
        ensures part { item_text result ≡ text.now }
        ensures place { item_place result ≡ at }
    {
        match token {
            Token::Register(name) => Item::Register { name, text, at },
            Token::Literal(value) => Item::Literal { value, text, at },
            Token::Opcode(opcode) => Item::Opcode { opcode, text, at },
            Token::Mark(mark) => Item::Mark { mark, text, at },
        }
    }
}
