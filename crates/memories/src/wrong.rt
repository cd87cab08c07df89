// The refusal of sections against the rules.
ghost use Rattle.std.specs.Prelude.{◌≡◌};
ghost use Rattle.operations.specs.declared.refusal.Refusal.TheVariants.{WrongSections as Wrong};

use operations::Refusal;

// With what was handed in, as `AllocFailed` has it. A bare `Refusal` would let it go, and that a lent slice is then unaltered
// (`LendsIfOk`) is not proved of a body that puts the slice into a struct.
#[derive(Drop)]
pub struct WrongSections<T> {
    pub back: T,
}

impl<T: Drop> WrongSections<T> {
    pub fn refusal(&self) -> Refusal
        ensures { result ≡ Wrong }
    {
        Refusal::WrongSections
    }
}
