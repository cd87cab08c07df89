// Marks as they are written.
ghost use Rattle.lines.specs.Begins.{Begins};
ghost use Rattle.lines.specs.declared.written.Token.TheVariants as token;
ghost use Rattle.lines.specs.Tokens.{TokenAt};

use crate::mark::{Latency, Mark};
use crate::tables::begins;

const MARKS: [(Mark, &'static [u8]); 18] = [
    (Mark::Space, b" "),
    (Mark::Equals, b"="),
    (Mark::Comma, b","),
    (Mark::Open, b"("),
    (Mark::Close, b")"),
    (Mark::Colon, b":"),
    (Mark::Unplaced, b"- "),
    (Mark::If, b"if"),
    (Mark::Exit, b"exit"),
    (Mark::Halt, b"halt"),
    (Mark::Next, b"next"),
    (Mark::Goto, b"goto"),
    (Mark::Loop, b"loop"),
    (Mark::Block, b"block"),
    (Mark::Slot, b"slot"),
    (Mark::Latency(Latency::Integer), b"integer"),
    (Mark::Latency(Latency::Load), b"load"),
    (Mark::Latency(Latency::Compare), b"compare"),
];

// The mark at the front of `text`, and what follows it.
pub(crate) fn mark<'a>(text: &'a [u8]) -> Option<(Mark, &'a [u8])>
    ensures { Begins (λ m rest. TokenAt text.now (token.Mark m) rest) result }
{
    begins(&MARKS, text)
}
