// The call from C.
ghost use Rattle.std.specs.Prelude.{◌≡◌, ◌≤◌, ◌++◌, length, drop, Err, MatchResult};
ghost use Rattle.text.specs.Answered.{Answered};
ghost use Rattle.blockcheck_c.specs.Answers.{fault_number, Numbered, Answers};

use crate::numbers::numbers;
use operations::Refusal;
use std::alloc::Global;
use text::Fault;
use verdicts::verdicts;

// No row of the table of refusals: memory has run out.
const NO_MEMORY: u32 = 255;

// C is answered a number for each refusal.
fn number(fault: Fault) -> u32
    ensures { result ≡ fault_number fault.entry }
{
    match fault {
        Fault::Refused(text) => u32::from(text.refusal.number()),
        Fault::Memory => NO_MEMORY,
    }
}

// Where there is room: the numbers go to the front, and the rest is left as it was.
fn copy(to: &mut [u32], numbers: &[u32])
    requires { length numbers.now ≤ length to.old }
    ensures { to.new ≡ numbers.now ++ drop (length numbers.now) to.old }
{
    to[..numbers.len()].copy_from_slice(numbers);
}

// The verdicts on the blocks of both texts, as numbers.
fn numbered<'a>(
    heap: Global,
    description: &'a [u8],
    program: &'a [u8],
) -> Result<Vec<u32>, Fault<'a>>
    ensures { MatchResult result (λ v. Numbered description.now program.now v.items) (λ f. Answered description.now program.now (Err f)) }
{
    let blocks = text::load(heap, description, program)?;
    let all = verdicts(heap, &blocks)?;
    Ok(numbers(heap, all.as_slice())?)
}

// Both texts, and room for the verdicts: their count and six numbers for each block that has operations. Answers 0, or the number of a refusal, and then leaves the room as it was.
#[unsafe(no_mangle)]
pub extern "C" fn blockcheck_verdicts(
    heap: Global,
    description: &[u8],
    program: &[u8],
    room: &mut [u32],
) -> u32
    ensures { Answers description.now program.now room.old room.new result }
{
    let numbers = match numbered(heap, description, program) {
        Ok(numbers) => numbers,
        Err(fault) => return number(fault),
    };
    if room.len() < numbers.len() {
        return u32::from(Refusal::BufferTooShort.number());
    }
    copy(room, numbers.as_slice());
    0
}
