// Literals as they are written.
ghost use Rattle.std.specs.Prelude.{◌≡◌, ◌-◌, ◌^◌, ◌<◌, negsuc};
ghost use Rattle.lines.specs.Begins.{Begins};
ghost use Rattle.lines.specs.declared.written.Token.TheVariants as token;
ghost use Rattle.lines.specs.Tokens.{TokenAt};

use crate::number::number;
use crate::words::field;

// What a minus may stand before.
const LEAST_NEGATED: u64 = 1;

fn negated(n: u64) -> i64
    requires { (0 < n) × (n < 10 ^ 10) }
    ensures { result ≡ negsuc (n - 1) }
{
    // `as`, for ten digits are proved to fit.
    -(n as i64)
}

// The literal at the front of `text`, and what follows it.
pub(crate) fn literal<'a>(text: &'a [u8]) -> Option<(i64, &'a [u8])>
    ensures { Begins (λ z rest. TokenAt text.now (token.Literal z) rest) result }
{
    if let Some((n, rest)) = field(text, b"-") {
        // A test of its own: nothing is handed on.
        if n < LEAST_NEGATED {
            return None;
        }
        return Some((negated(n), rest));
    }
    let (n, rest) = number(text)?;
    // `as`, for ten digits are proved to fit.
    Some((n as i64, rest))
}
