// A placed operation, as check sees it.
ghost use Rattle.std.specs.Prelude.{◌<◌, ◌≤◌};

use operations::{Reads, Writes};

#[derive(Clone, Copy)]
pub struct Placed {
    pub reads: Reads,
    pub writes: Writes,
    pub cycle: u16,
    pub slot: u8,
    pub shortest: u16,
    pub longest: u16,
    ghost early: { cycle < 1024 },
    ghost quick: { longest ≤ 31 },
    ghost ordered: { shortest ≤ longest },
    ghost takes_time: { 1 ≤ shortest },
}
