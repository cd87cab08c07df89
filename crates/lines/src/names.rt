// Registers as they are written.
ghost use Rattle.lines.specs.Begins.{Begins};
ghost use Rattle.lines.specs.declared.written.Token.TheVariants as token;
ghost use Rattle.lines.specs.Tokens.{TokenAt};

use crate::words::field;
use crate::written::{WrittenGeneral, WrittenPredicate, WrittenRegister};

// The register at the front of `text`, and what follows it.
pub(crate) fn name<'a>(text: &'a [u8]) -> Option<(WrittenRegister, &'a [u8])>
    ensures { Begins (λ x rest. TokenAt text.now (token.Register x) rest) result }
{
    // A chain of `or_else` is longer, since each closure there takes four lines.
    if let Some((n, rest)) = field(text, b"r") {
        return Some((WrittenRegister::General(WrittenGeneral::Static(n)), rest));
    }
    if let Some((n, rest)) = field(text, b"rr") {
        return Some((WrittenRegister::General(WrittenGeneral::Rotating(n)), rest));
    }
    if let Some((n, rest)) = field(text, b"p") {
        return Some((
            WrittenRegister::Predicate(WrittenPredicate::Static(n)),
            rest,
        ));
    }
    let (n, rest) = field(text, b"rp")?;
    Some((
        WrittenRegister::Predicate(WrittenPredicate::Rotating(n)),
        rest,
    ))
}
