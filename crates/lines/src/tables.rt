// Tables of words.
ghost use Rattle.std.specs.Prelude.{◌≡◌, Some, None, MatchOption};
ghost use Rattle.lines.specs.Tables.{begun};

use crate::words::after_word;

// What the first of the table's words that `text` begins with stands for, and what follows it.
pub(crate) fn begins<'a, T: Copy>(
    table: &[(T, &'static [u8])],
    text: &'a [u8],
) -> Option<(T, &'a [u8])>
    ensures { MatchOption result (begun table.now text.now ≡ None) (λ x. begun table.now text.now ≡ Some (x.0, x.1.now)) }
{
    table.iter().find_map(|entry| after_word(text, entry.1).map(|rest| (entry.0, rest)))
}
