// The classes of a slot as they are written.
ghost use Rattle.std.specs.Prelude.{◌≡◌, ◌≢◌, ℕ, false, cond, List, [], ◌++◌};
ghost use Rattle.lines.specs.Lines.{classes_text, HasClass};
ghost use Rattle.lines.specs.Said.{Whole};

use crate::words::after_word;
use crate::written::Classes;

// Whether `letter` is the front of `text`, and the text to read on from: that is all of it where the letter is not there, so this is no Option.
fn letter<'a>(text: &'a [u8], letter: &[u8]) -> (bool, &'a [u8])
    ensures found { text.now ≡ cond result.0 letter.now [] ++ result.1.now }
    ensures missed { result.0 ≡ false → (rest : List ℕ) → text.now ≢ letter.now ++ rest }
{
    match after_word(text, letter) {
        Some(rest) => (true, rest),
        None => (false, text),
    }
}

// The classes that `text` is the letters of: one at least.
pub(crate) fn classes(text: &[u8]) -> Option<Classes>
    ensures { Whole classes_text HasClass text.now result }
{
    let (integer, text) = letter(text, b"I");
    let (memory, text) = letter(text, b"M");
    let (compare, text) = letter(text, b"C");
    let some = integer || memory || compare;
    (some && text.is_empty()).then_some(Classes {
        integer,
        memory,
        compare,
    })
}
