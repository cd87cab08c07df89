// Numbers as they are written.
ghost use Rattle.std.specs.Prelude.{◌≡◌, ◌≤◌, length, take};
ghost use Rattle.lines.specs.Begins.{Begins};
ghost use Rattle.std.specs.Str.Parse.{AllDigits, digits_value};
ghost use Rattle.lines.specs.Numbers.{run, Number};

const MOST_DIGITS: usize = 10;

const ZERO: u8 = b'0';

// How many digits stand at the front.
fn digit_count(text: &[u8]) -> usize
    ensures count { result ≡ run text.now }
    ensures within { result ≤ length text.now }
    ensures all { AllDigits 10 (take result text.now) }
{
    text.iter().take_while(|b| b.is_ascii_digit()).count()
}

fn digits_value(digits: &[u8]) -> u64
    requires { (length digits.now ≤ 10) × (AllDigits 10 digits.now) }
    ensures { result ≡ digits_value 10 digits.now }
{
    // In a `fold` the closure would have to show that each sum fits.
    let mut n = 0u64;
    for b in digits {
        n = n * 10 + u64::from(*b - b'0');
    }
    n
}

// The number at the front of `text`, and what follows it.
pub(crate) fn number<'a>(text: &'a [u8]) -> Option<(u64, &'a [u8])>
    ensures { Begins (Number text.now) result }
{
    let n = digit_count(text);
    // Two tests of their own: nothing is handed on.
    if n > MOST_DIGITS || n == 0 {
        return None;
    }
    if n > 1 && text[0] == ZERO {
        return None;
    }
    let value = digits_value(&text[0..n]);
    Some((value, &text[n..]))
}
