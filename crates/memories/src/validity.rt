// Sections against the rules.
ghost use Rattle.std.specs.Prelude.{◌≡◌, nat_le};
ghost use Rattle.memories.specs.Sections.{end_after, in_order, word_count};

use crate::section::Section;

// Where a section ends, if it is right, and begins at `low` or after.
fn end_after(s: &Section, low: u64) -> Option<u64>
    ensures { result ≡ end_after s.now low }
{
    // No `then_some`: that the sum fits is known only where the test holds.
    if s.is_right() && low <= u64::from(s.offset) {
        Some(u64::from(s.offset) + s.length)
    } else {
        None
    }
}

// Whether each is right, and begins where the one before it ends, or after.
pub fn in_order(sections: &[Section]) -> bool
    ensures { result ≡ in_order 0 sections.now }
{
    sections
        .iter()
        .try_fold(0, |low, s| end_after(s, low))
        .is_some()
}

// Whether their words are at most `room`.
pub fn has_room(sections: &[Section], room: usize) -> bool
    ensures { result ≡ nat_le (word_count sections.now) room }
{
    // `as`, for std has no `From` of a `usize` for `u64`.
    sections
        .iter()
        .try_fold(room as u64, |left, s| left.checked_sub(s.length / 4))
        .is_some()
}
