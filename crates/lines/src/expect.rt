// Items of one kind, where they are expected.
ghost use Rattle.lines.specs.Items.{left};
ghost use Rattle.lines.specs.Marks.{mark_text, marks_text};
ghost use Rattle.lines.specs.Said.{Says, Passes};

use crate::mark::Mark;
use crate::place::Reader;
use crate::saying::Said;

// What the next item says, if it says a T.
pub(crate) fn expect<T: Said>(reader: &mut Reader) -> Option<T>
    ensures { Says T.token (left reader.old) result (left reader.new) }
{
    T::from_token(reader.next()?.token())
}

fn mark(reader: &mut Reader, expected: Mark) -> Option<()>
    ensures { Passes (mark_text expected) (left reader.old) result (left reader.new) }
{
    (expect::<Mark>(reader)? == expected).then_some(())
}

// The marks, one behind the other.
pub(crate) fn marks(reader: &mut Reader, expected: &[Mark]) -> Option<()>
    ensures { Passes (marks_text expected.now) (left reader.old) result (left reader.new) }
{
    for next in expected {
        mark(reader, *next)?;
    }
    Some(())
}
