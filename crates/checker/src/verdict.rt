// What check answers.
// No `Option<Violation>`: its `None`, inside the `Result` of `check`, would read as no answer, and this says kept.
use operations::Violation;

#[derive(Clone, Copy, PartialEq, Eq, Debug)]
pub enum Verdict {
    Kept,
    Violated(Violation),
}
