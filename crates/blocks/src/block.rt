// A block, with what always holds of it.
ghost use Rattle.std.specs.Prelude.{◌≡◌, ◌≤◌, vec_len, vec_capacity};
ghost use Rattle.blocks.specs.Entries.{Apart};

use crate::exit::Exit;
use crate::position::Entry;

// At most 64 operations in written order, no two in one cycle and slot.
#[derive(Drop)]
pub struct Block {
    pub(crate) entries: Vec<Entry>,
    pub(crate) exit: Exit,
    ghost few: { vec_len entries ≤ 64 },
    ghost room: { 64 ≤ vec_capacity entries },
    ghost apart: { Apart entries.items },
}
