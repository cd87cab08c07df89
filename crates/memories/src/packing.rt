// Where the words of sections are packed.
ghost use Rattle.std.specs.Prelude.{◌≡◌, ℕ, ◌<◌, length, Some};
ghost use Rattle.memories.specs.Sections.{holds_word, index};

use crate::section::Section;

fn holds_word(s: &Section, word: u32) -> bool
    ensures { result ≡ holds_word s.now word }
{
    s.offset / 4 <= word && u64::from(word - s.offset / 4) < s.length / 4
}

// The place among `room` words of the word at an address.
pub fn find(sections: &[Section], room: usize, address: u32) -> Option<usize>
    ensures is { result ≡ index sections.now room address }
    ensures below { (k : ℕ) → result ≡ Some k → k < room }
{
    // Tests of their own, here and below; no `then_some`, for that the sum fits is known only where the test holds.
    if address % 4 != 0 {
        return None;
    }
    let word = address / 4;
    // A loop, for the base is wanted where the search ends, and of a closure that keeps one a proof knows nothing.
    let mut base: usize = 0;
    for s in sections {
        if holds_word(s, word) {
            // `as`, here and below, for std has no `From` between `usize` and these; they are proved to fit.
            let place = (word - s.offset / 4) as usize;
            return if place < room - base {
                Some(base + place)
            } else {
                None
            };
        }
        if s.length / 4 > (room - base) as u64 {
            return None;
        }
        base += (s.length / 4) as usize;
    }
    None
}
