// How far a program has been read: before its first block, in a block, or behind that block's exit.
#[derive(Clone, Copy)]
pub enum Stage {
    Start,
    Open(u8),
    Ended(u8),
}
