// The operations of a block, as check sees them.
ghost use Rattle.std.specs.Prelude.{◌≡◌, ℕ, ◌≤◌, length, Some, None, MatchOption, MatchResult};
ghost use Rattle.blocks.specs.Entries.{unplaced_lowest};
ghost use Rattle.checker.specs.Seen.{Sees, SeenTo};

use crate::placed::Placed;
use blocks::{Description, Entry};
use operations::{Reads, Refusal, Writes};

// The operation of the entry, where it is placed.
fn placed(description: &Description, entry: &Entry) -> Option<Placed>
    ensures { MatchOption result (entry.now.position ≡ None) (λ a. Sees description.now entry.now a) }
{
    let position = entry.position?;
    let (shortest, longest) = description
        .latency(&entry.operation)
        .map_or((1, 1), |bounds| (bounds.shortest, bounds.longest));
    Some(Placed {
        reads: entry.operation.reads(),
        writes: entry.operation.writes(),
        cycle: position.cycle,
        slot: position.slot,
        shortest: u16::from(shortest),
        longest: u16::from(longest),
    })
}

// Stands where there is no operation: check uses no heap, so that a fixed array holds them, the first as many as the block has. An
// `ArrayVec` would want this too, as the `Default` of a placed operation.
fn nothing() -> Placed {
    Placed {
        reads: Reads {
            guard: None,
            first: None,
            second: None,
            memory: None,
        },
        writes: Writes {
            first: None,
            second: None,
            memory: None,
        },
        cycle: 0,
        slot: 0,
        shortest: 1,
        longest: 1,
    }
}

// All operations of a block, or the lowest that is not placed.
pub(crate) fn all_placed(
    description: &Description,
    entries: &[Entry],
) -> Result<[Placed; 64], Refusal>
    requires { length entries.now ≤ 64 }
    ensures { MatchResult result
        (λ ps. (length ps ≡ 64) × (unplaced_lowest entries.now ≡ None) × SeenTo description.now entries.now (length entries.now) ps)
        (λ e. (i : ℕ) × (e ≡ Refusal.Unplaced i) × (unplaced_lowest entries.now ≡ Some i)) }
{
    let mut all = [nothing(); 64];
    for (i, entry) in entries.iter().enumerate() {
        // By number: after a loop over `iter_mut` a proof knows the length alone. `as`, for the number is proved to fit.
        all[i] = placed(description, entry).ok_or(Refusal::Unplaced(i as u8))?;
    }
    Ok(all)
}
