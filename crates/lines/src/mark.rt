// What stands between registers, literals and opcodes in a line.
#[derive(Clone, Copy, PartialEq)]
pub enum Latency {
    Integer,
    Load,
    Compare,
}

#[derive(Clone, Copy, PartialEq)]
pub enum Mark {
    Space,
    Equals,
    Comma,
    Open,
    Close,
    Colon,
    // The dash of an operation that is not placed, with the space behind it.
    Unplaced,
    If,
    Exit,
    Halt,
    Next,
    Goto,
    Loop,
    Block,
    Slot,
    // The word before two bounds.
    Latency(Latency),
}
