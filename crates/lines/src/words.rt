// Words at the front of a text.
ghost use Rattle.std.specs.Prelude.{◌≡◌, ℕ, List, ◌++◌, MatchOption, ◌≢◌};
ghost use Rattle.lines.specs.Begins.{Begins};
ghost use Rattle.lines.specs.Fields.{Field};

use crate::number::number;

// What follows `word` at the front of `text`.
pub(crate) fn after_word<'a>(text: &'a [u8], word: &[u8]) -> Option<&'a [u8]>
    ensures { MatchOption result ((rest : List ℕ) → text.now ≢ word.now ++ rest) (λ x. text.now ≡ word.now ++ x.now) }
{
    text.strip_prefix(word)
}

// The number that follows `word` at the front of `text`, and what follows it.
pub(crate) fn field<'a>(text: &'a [u8], word: &[u8]) -> Option<(u64, &'a [u8])>
    ensures { Begins (Field word.now text.now) result }
{
    number(after_word(text, word)?)
}
