// Shifts by any count.
ghost use Rattle.std.specs.Prelude.{◌≡◌, ℕ, ◌*◌, ◌/◌, ◌%◌, ◌^◌};
ghost use Rattle.opcodes.specs.Words.{signed, word, over};

// All bits of a word: -1.
const ONES: u32 = 0xffff_ffff;

// The sign bit of a word.
const SIGN: u32 = 0x8000_0000;

// `a` times 2^count, modulo 2^32.
pub(crate) fn shift_left(a: u32, count: u32) -> u32
    ensures { result ≡ (a * 2 ^ count) % 2 ^ 32 }
{
    if count < 32 { a << count } else { 0 }
}

// `a` over 2^count, rounded down.
pub(crate) fn shift_right(a: u32, count: u32) -> u32
    ensures { result ≡ a / 2 ^ count }
{
    if count < 32 { a >> count } else { 0 }
}

// The signed value of `a` over 2^count, rounded down.
pub(crate) fn shift_right_signed(a: u32, count: u32) -> u32
    ensures { result ≡ word (over (signed a) (2 ^ count)) }
{
    if a < SIGN {
        shift_right(a, count)
    } else {
        ONES - shift_right(ONES - a, count)
    }
}
