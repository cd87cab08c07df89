// The lines of a text, taken in one by one.
ghost use Rattle.std.specs.Prelude.{◌≡◌, ℕ, List, Ok, Err, Some, Result, IfSome, MatchResult};
ghost use Rattle.operations.specs.declared.refusal.Refusal.{Refusal};
ghost use Rattle.text.specs.Texts.{lines_of, Taken};
ghost use Rattle.text.specs.Turns.{GoesOn, Stops};

use crate::cutting::cut_line;
use crate::fault::RefusedText;
use operations::Refusal;

// What is read line by line.
pub(crate) trait ByLines {
    type Said;

    ghost State: { Type 0 };

    ghost view: { Self → State };

    // The line is the text of what it says.
    ghost Line: { List ℕ → Self.Said → Type 0 };

    ghost step: { State → Self.Said → Result State Refusal };

    // What a line says.
    fn said(line: &[u8]) -> Option<Self::Said>
        ensures sound { IfSome result (λ w. Line line.now w) }
        ensures complete { (w : Self.Said) → Line line.now w → result ≡ Some w };

    // One line more.
    fn step(&mut self, said: Self::Said) -> Result<(), Refusal>
        ensures { MatchResult result (λ _. step (view self.old) said ≡ Ok (view self.new)) (λ e. step (view self.old) said ≡ Err e) };
}

#[tactic(auto, using(crate::proofs::Turning::unread_stops))]
fn take_line<R: ByLines>(reading: &mut R, line: &[u8]) -> Result<(), Refusal>
    ensures { MatchResult result (λ _. GoesOn R.Line R.step (R.view reading.old) line.now (R.view reading.new)) (λ e. Stops R.Line R.step (R.view reading.old) line.now e) }
{
    let said = R::said(line).ok_or(Refusal::Unreadable)?;
    reading.step(said)
}

// Takes in the lines of the text, or answers why one is refused.
#[tactic(auto, using(crate::proofs::Turning::ends))]
pub(crate) fn take_lines<'a, R: ByLines>(
    reading: &mut R,
    text: &'a [u8],
) -> Result<(), RefusedText<'a>>
    ensures { MatchResult result (λ _. Taken R.Line R.step (R.view reading.old) (lines_of text.now) (Ok (R.view reading.new))) (λ r. Taken R.Line R.step (R.view reading.old) (lines_of text.now) (Err (r.refusal, r.line.now))) }
{
    let mut rest = text;
    // Of what a closure changes a proof knows nothing after `try_for_each`, so this is a loop.
    while let Some((line, after)) = cut_line(rest) {
        take_line(reading, line).map_err(|refusal| RefusedText { refusal, line })?;
        rest = after;
    }
    Ok(())
}
