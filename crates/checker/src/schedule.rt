// The schedule of a block, as check sees it.
ghost use Rattle.std.specs.Prelude.{◌≤◌, length};

use crate::placed::Placed;

// The placed operations of a block, at most 64, on a machine with this last slot.
#[derive(Clone, Copy)]
pub(crate) struct Schedule<'a> {
    pub placed: &'a [Placed],
    pub last: u8,
    ghost few: { length placed.now ≤ 64 },
}
