// Both texts loaded.
ghost use Rattle.std.specs.Prelude.{◌≡◌, ◌<◌, [], length, MatchResult};
ghost use Rattle.operations.specs.declared.refusal.Refusal.TheVariants.{BeyondLimit};
ghost use Rattle.text.specs.Loads.{FitsText, Describes};
ghost use Rattle.text.specs.Answered.{Answered, NotDescribed};

use crate::fault::{Fault, RefusedText};
use crate::loading::Loading;
use crate::part::Part;
use crate::stage::Stage;
use crate::taking::take_lines;
use blocks::{Blocks, Description};
use operations::Refusal;
use std::alloc::Global;

// How many bytes a text may have.
pub const LIMIT: usize = 65_535;

// Refuses a text that is too long.
fn fits<'a>(text: &'a [u8]) -> Result<(), RefusedText<'a>>
    ensures { MatchResult result (λ _. FitsText text.now) (λ r. (65535 < length text.now) × (r.refusal ≡ BeyondLimit) × (r.line.now ≡ [])) }
{
    if text.len() > LIMIT {
        return Err(RefusedText {
            refusal: Refusal::BeyondLimit,
            line: &text[..0],
        });
    }
    Ok(())
}

// The machine that the text describes.
fn described<'a>(text: &'a [u8]) -> Result<Description, RefusedText<'a>>
    ensures { MatchResult result (λ x. Describes text.now x) (λ r. NotDescribed text.now r.refusal r.line.now) }
{
    let mut part = Part::Nothing;
    take_lines(&mut part, text)?;
    part.finished().ok_or(RefusedText {
        refusal: Refusal::Unreadable,
        line: &text[..0],
    })
}

// The blocks of the two texts. A text that is too long is refused first, the description's before the program's; then the description is read, and then the program.
pub fn load<'a>(heap: Global, description: &'a [u8], program: &'a [u8]) -> Result<Blocks, Fault<'a>>
    ensures { Answered description.now program.now result }
{
    fits(description)?;
    fits(program)?;
    let machine = described(description)?;
    let mut loading = Loading {
        blocks: Blocks::new(heap, machine)?,
        stage: Stage::Start,
    };
    take_lines(&mut loading, program)?;
    Ok(loading.blocks)
}
