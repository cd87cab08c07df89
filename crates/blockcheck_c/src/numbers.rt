// Verdicts as numbers, one behind the other.
ghost use Rattle.std.specs.Prelude.{◌≡◌, ◌≤◌, length, IfOk};
ghost use Rattle.blockcheck_c.specs.Numbers.{numbers_of};

use crate::rows::row;
use std::alloc::{AllocError, Global};
use verdicts::BlockVerdict;

// How many verdicts, and then each.
pub(crate) fn numbers(heap: Global, all: &[BlockVerdict]) -> Result<Vec<u32>, AllocError>
    requires { length all.now ≤ 16 }
    ensures { IfOk result (λ v. v.items ≡ numbers_of all.now) }
{
    let mut numbers = Vec::new(heap);
    // `as`, for the length is proved to fit.
    numbers.push(all.len() as u32)?;
    // A `flat_map` over arrays has no fact of the whole list, so this is a loop.
    for verdict in all {
        numbers.extend_from_slice(&row(*verdict))?;
    }
    Ok(numbers)
}
