// That 32 bits hold each literal: a proof learns how large a number in an enum is only where code takes the enum apart, so this is no lemma.
ghost use Rattle.std.specs.Prelude.{◌≡◌, true};
ghost use Rattle.lines.specs.Raw.{operand_held, literals_held};
ghost use Rattle.printing.specs.Written.{written_source, written_sources};

use operations::{Form, Source};

fn source_held(source: Source)
    ensures { operand_held (written_source source) ≡ true }
{
    match source {
        Source::Register(_) | Source::Literal(_) => {}
    }
}

pub(crate) fn held(form: Form)
    ensures { literals_held (written_sources form) ≡ true }
{
    match form {
        Form::Binary { first, second, .. } | Form::Compare { first, second, .. } => {
            source_held(first);
            source_held(second)
        }
        Form::Unary { source, .. } => source_held(source),
        Form::Load { .. } | Form::Store { .. } => {}
    }
}
