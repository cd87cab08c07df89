// How much of a description has been read.
use blocks::{Bounds, Description, Slots};

#[derive(Clone, Copy)]
pub(crate) enum Part {
    Nothing,
    Slots(Slots),
    // With the bounds of the integer opcodes.
    Integer(Slots, Bounds),
    // With those of loads behind them.
    Load(Slots, Bounds, Bounds),
    All(Description),
}
