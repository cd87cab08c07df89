// Why two texts give no blocks.
ghost use Rattle.std.specs.Prelude.{◌≡◌};

use operations::Refusal;
use std::alloc::AllocError;

// Why a text is refused, and the line at fault, a part of that text; empty where a line is missing and where a text is too long.
#[derive(Clone, Copy)]
pub struct RefusedText<'a> {
    pub refusal: Refusal,
    pub line: &'a [u8],
}

#[derive(Clone, Copy)]
pub enum Fault<'a> {
    Memory,
    Refused(RefusedText<'a>),
}

impl<'a> From<AllocError> for Fault<'a> {
    ghost use Rattle.text.specs.declared.fault.Fault.TheVariants.{Memory};

    ghost from_gives = { λ _ f. f ≡ Memory };

    fn from(_e: AllocError) -> Fault<'a> {
        Fault::Memory
    }
}

impl<'a> From<RefusedText<'a>> for Fault<'a> {
    ghost use Rattle.text.specs.declared.fault.Fault.TheVariants.{Refused};

    ghost from_gives = { λ r f. f ≡ Refused r };

    fn from(refused: RefusedText<'a>) -> Fault<'a> {
        Fault::Refused(refused)
    }
}
