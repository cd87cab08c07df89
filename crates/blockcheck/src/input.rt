// The two texts in one input, a line `program` between them.
use operations::Refusal;
use std::io::Read;
use text::{LIMIT, RefusedText};

const DIVIDER: &[u8] = b"program";

// Two texts, and the line between them with its newline.
const MOST: usize = LIMIT + 8 + LIMIT;

const CHUNK: usize = 4096;

// All of the input; None where there is more than two texts may have. At most one byte more than that is read.
// By chunks, and not by `take` and `read_to_end`: here the check refuses a loop without a bound (it does not tell the last byte), and no room is made for bytes that do not come.
pub(crate) fn read(rt: &HostRuntime) -> anyhow::Result<Option<Vec<u8>>> {
    let mut input = rt.stdin();
    let mut all = Vec::new(rt.alloc());
    let mut chunk = [0u8; CHUNK];
    for _ in 0..MOST + 2 {
        let room = MOST + 1 - all.len();
        let n = input.read(&mut chunk[..room.min(CHUNK)])?;
        if n == 0 {
            return Ok(Some(all));
        }
        all.extend_from_slice(&chunk[..n])?;
        if all.len() > MOST {
            return Ok(None);
        }
    }
    Ok(None)
}

// The texts before and behind the first line `program`. Without that line the input is refused, for its length where it is longer than a text may be.
pub(crate) fn divided<'a>(input: &'a [u8]) -> Result<(&'a [u8], &'a [u8]), RefusedText<'a>> {
    let mut rest = input;
    // An iterator over the lines would not tell where a line begins, so this is a loop.
    while let Some((line, behind)) = text::cut_line(rest) {
        if line == DIVIDER {
            return Ok((&input[..input.len() - rest.len()], behind));
        }
        rest = behind;
    }
    let refusal = if input.len() > LIMIT {
        Refusal::BeyondLimit
    } else {
        Refusal::Unreadable
    };
    Err(RefusedText {
        refusal,
        line: rest,
    })
}
