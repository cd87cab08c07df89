// The operation that a line writes.
ghost use Rattle.std.specs.Prelude.{◌≡◌, ◌++◌, codes};
ghost use Rattle.lines.specs.Items.{left};
ghost use Rattle.lines.specs.Numbers.{Short};
ghost use Rattle.lines.specs.Said.{Reads, Whole, call_of, behind_text, FirstIs, ShortCall};
ghost use Rattle.lines.specs.Written.{guard_text, sources_text, written_text, predicate_number, ShortSources, ShortOperation};

use crate::expect::{expect, marks};
use crate::mark::Mark;
use crate::place::Reader;
use crate::written::{WrittenOperation, WrittenPredicate, WrittenRegister, WrittenSources};
use operations::UpToTwo;

// p1, which is not written as a guard.
const ALWAYS: WrittenPredicate = WrittenPredicate::Static(1);

// The guard, up to the end of the line.
fn guard(reader: &mut Reader) -> Option<WrittenPredicate>
    ensures { Whole guard_text (λ g. Short (predicate_number g)) (left reader.old) result }
{
    if reader.is_done() {
        return Some(ALWAYS);
    }
    marks(reader, &[Mark::Space, Mark::If, Mark::Space])?;
    let name = expect(reader)?;
    (reader.is_done() && name != ALWAYS).then_some(name)
}

// The sources, and the bracket behind them.
fn sources(reader: &mut Reader) -> Option<WrittenSources>
    ensures { Reads (λ s rest. sources_text s (codes ")" ++ rest)) ShortSources (left reader.old) result (left reader.new) }
{
    let first = expect(reader)?;
    // A copy reads ahead, here and below: what becomes of it differs, so there is no function for it.
    let mut ahead = *reader;
    if marks(&mut ahead, &[Mark::Close]).is_some() {
        *reader = ahead;
        return Some(WrittenSources::One(first));
    }
    marks(reader, &[Mark::Comma, Mark::Space])?;
    let second = expect(reader)?;
    marks(reader, &[Mark::Close])?;
    Some(WrittenSources::Two(first, second))
}

// The opcode, the sources and the guard, behind the destinations.
fn call(reader: &mut Reader, destinations: UpToTwo<WrittenRegister>) -> Option<WrittenOperation>
    ensures { Whole call_of (λ w. (w.destinations ≡ destinations) × ShortCall w) (left reader.old) result }
{
    let opcode = expect(reader)?;
    marks(reader, &[Mark::Open])?;
    let sources = sources(reader)?;
    let guard = guard(reader)?;
    Some(WrittenOperation {
        opcode,
        guard,
        destinations,
        sources,
    })
}

// What stands behind the first destination.
fn behind(reader: &mut Reader, first: WrittenRegister) -> Option<WrittenOperation>
    ensures { Whole behind_text (λ w. FirstIs first w.destinations × ShortCall w) (left reader.old) result }
{
    let mut ahead = *reader;
    if marks(&mut ahead, &[Mark::Comma, Mark::Space]).is_some() {
        let second = expect(&mut ahead)?;
        marks(&mut ahead, &[Mark::Space, Mark::Equals, Mark::Space])?;
        return call(&mut ahead, UpToTwo::Two(first, second));
    }
    marks(reader, &[Mark::Space, Mark::Equals, Mark::Space])?;
    call(reader, UpToTwo::One(first))
}

pub(crate) fn operation(reader: &mut Reader) -> Option<WrittenOperation>
    ensures { Whole written_text ShortOperation (left reader.old) result }
{
    let mut ahead = *reader;
    match expect(&mut ahead) {
        Some(first) => behind(&mut ahead, first),
        None => call(reader, UpToTwo::Zero),
    }
}
