// What is said of one block.
ghost use Rattle.std.specs.Prelude.{◌≡◌, Ok};
ghost use Rattle.verdicts.specs.Listing.{answer_of};

use checker::Verdict;
use operations::Violation;

// The cases of `Verdict` and one more, in one enum, so that whoever prints or numbers them has one `match`.
#[derive(Clone, Copy)]
pub enum Standing {
    Kept,
    Violated(Violation),
    // The lowest operation that is not placed.
    Unplaced(u8),
}

impl From<Verdict> for Standing {
    ghost from_gives = { λ v s. Ok v ≡ answer_of s };

    fn from(verdict: Verdict) -> Standing {
        match verdict {
            Verdict::Kept => Standing::Kept,
            Verdict::Violated(violation) => Standing::Violated(violation),
        }
    }
}

#[derive(Clone, Copy)]
pub struct BlockVerdict {
    pub block: u8,
    pub standing: Standing,
}
