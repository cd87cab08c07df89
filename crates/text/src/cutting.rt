// The lines of a text, one after the other.
ghost use Rattle.std.specs.Prelude.{◌≡◌, ◌<◌, ◌==◌, [], ◌∷◌, length, MatchOption};
ghost use Rattle.std.specs.List.{position};
ghost use Rattle.text.specs.Texts.{lines_of};

// Where the first newline is.
fn newline(text: &[u8]) -> Option<usize>
    ensures { result ≡ position (λ b. b == 10) text.now }
{
    text.iter().position(|b| *b == b'\n')
}

// The first line, and what stands behind its newline; `None` where the text is empty.
pub fn cut_line<'a>(text: &'a [u8]) -> Option<(&'a [u8], &'a [u8])>
    ensures { MatchOption result (text.now ≡ []) (λ x. (lines_of text.now ≡ x.0.now ∷ lines_of x.1.now) × (length x.1.now < length text.now)) }
{
    // A test of its own: nothing is handed on.
    if text.is_empty() {
        return None;
    }
    match newline(text) {
        Some(i) => Some((&text[..i], &text[i + 1..])),
        None => Some((text, &text[text.len()..])),
    }
}
