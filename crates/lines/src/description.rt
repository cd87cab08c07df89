// A line of the description.
ghost use Rattle.std.specs.Prelude.{◌≡◌, IfSome, Some};
ghost use Rattle.lines.specs.Items.{left};
ghost use Rattle.lines.specs.Lines.{description_line_text, ShortBounds, ShortDescription, IsDescriptionLine};
ghost use Rattle.lines.specs.Said.{Whole, spaced_bounds, slot_behind, bounds_of, ShortSlot};
ghost use Rattle.lines.specs.declared.written.DescriptionLine.{DescriptionLine};

use crate::classes::classes;
use crate::expect::{expect, marks};
use crate::mark::{Latency, Mark};
use crate::place::Reader;
use crate::program::last_number;
use crate::written::{DescriptionLine, WrittenBounds};

// A space and two bounds, up to the end of the line.
fn bounds(reader: &mut Reader) -> Option<WrittenBounds>
    ensures { Whole spaced_bounds ShortBounds (left reader.old) result }
{
    marks(reader, &[Mark::Space])?;
    let shortest = expect(reader)?;
    marks(reader, &[Mark::Space])?;
    let longest = last_number(reader)?;
    Some(WrittenBounds { shortest, longest })
}

// `slot` has been read.
fn slot(reader: &mut Reader) -> Option<DescriptionLine>
    ensures { Whole slot_behind ShortSlot (left reader.old) result }
{
    marks(reader, &[Mark::Space])?;
    let number = expect(reader)?;
    marks(reader, &[Mark::Space])?;
    let classes = classes(reader.rest())?;
    Some(DescriptionLine::Slot { number, classes })
}

fn with_bounds(latency: Latency, bounds: WrittenBounds) -> DescriptionLine
    ensures { result ≡ bounds_of latency bounds }
{
    match latency {
        Latency::Integer => DescriptionLine::Integer(bounds),
        Latency::Load => DescriptionLine::Load(bounds),
        Latency::Compare => DescriptionLine::Compare(bounds),
    }
}

fn said(reader: &mut Reader) -> Option<DescriptionLine>
    ensures { Whole description_line_text ShortDescription (left reader.old) result }
{
    match expect(reader)? {
        Mark::Slot => slot(reader),
        Mark::Latency(latency) => Some(with_bounds(latency, bounds(reader)?)),
        _ => None,
    }
}

// What a line of the description says.
pub fn description_line(line: &[u8]) -> Option<DescriptionLine>
    ensures sound { IfSome result (λ w. IsDescriptionLine line.now w) }
    ensures complete { (w : DescriptionLine) → IsDescriptionLine line.now w → result ≡ Some w }
{
    said(&mut Reader::new(line))
}
