// A description, line by line.
ghost use Rattle.std.specs.Prelude.{◌≡◌, ◌<◌, Ok, Err, MatchOption, MatchResult};
ghost use Rattle.operations.specs.declared.refusal.Refusal.TheVariants.{BeyondLimit};
ghost use Rattle.blocks.specs.Machine.{bounded};
ghost use Rattle.lines.specs.Lines.{IsDescriptionLine};
ghost use Rattle.text.specs.Describing.{Described, slot_numbered, description_step, Complete, Incomplete};
ghost use Rattle.text.specs.Views.{described_of};

use crate::part::Part;
use crate::taking::ByLines;
use blocks::{Bounds, Description, SLOTS, Slot, Slots};
use lines::{Classes, DescriptionLine, WrittenBounds, description_line};
use operations::Refusal;

fn bound(written: u64) -> Result<u8, Refusal>
    ensures { MatchResult result (λ n. n ≡ written) (λ e. (e ≡ BeyondLimit) × (31 < written)) }
{
    u8::try_from(written).map_err(|_| Refusal::BeyondLimit)
}

fn bounds(written: WrittenBounds) -> Result<Bounds, Refusal>
    ensures { result ≡ bounded written.shortest written.longest }
{
    Bounds::new(bound(written.shortest)?, bound(written.longest)?)
}

// A slot, where `count` of them come before it.
fn slot(count: u8, number: u64, classes: Classes) -> Result<Slot, Refusal>
    ensures { result ≡ slot_numbered count number classes }
{
    if number != u64::from(count) {
        return Err(Refusal::Unreadable);
    }
    if number >= u64::from(SLOTS) {
        return Err(Refusal::NoSuch);
    }
    Slot::new(classes.integer, classes.memory, classes.compare).ok_or(Refusal::Unreadable)
}

impl Part {
    // One line more.
    fn next(self, line: DescriptionLine) -> Result<Part, Refusal>
        ensures { MatchResult result (λ t. description_step (described_of self) line ≡ Ok (described_of t)) (λ e. description_step (described_of self) line ≡ Err e) }
    {
        match (self, line) {
            (Part::Nothing, DescriptionLine::Slot { number, classes }) => {
                let slot = slot(0, number, classes)?;
                Ok(Part::Slots(Slots::new(slot)))
            }
            (Part::Slots(mut slots), DescriptionLine::Slot { number, classes }) => {
                let slot = slot(slots.count, number, classes)?;
                slots.add(slot)?;
                Ok(Part::Slots(slots))
            }
            (Part::Slots(slots), DescriptionLine::Integer(written)) => {
                let integer = bounds(written)?;
                Ok(Part::Integer(slots, integer))
            }
            (Part::Integer(slots, integer), DescriptionLine::Load(written)) => {
                let load = bounds(written)?;
                Ok(Part::Load(slots, integer, load))
            }
            (Part::Load(slots, integer, load), DescriptionLine::Compare(written)) => {
                let compare = bounds(written)?;
                Ok(Part::All(Description {
                    slots,
                    integer,
                    load,
                    compare,
                }))
            }
            _ => Err(Refusal::Unreadable),
        }
    }

    // The description, where no line is missing.
    pub(crate) fn finished(self) -> Option<Description>
        ensures { MatchOption result (Incomplete (described_of self)) (λ d. Complete (described_of self) d) }
    {
        match self {
            Part::All(description) => Some(description),
            _ => None,
        }
    }
}

impl ByLines for Part {
    type Said = DescriptionLine;

    ghost State = { Described };

    ghost view = { described_of };

    ghost Line = { IsDescriptionLine };

    ghost step = { description_step };

    fn said(line: &[u8]) -> Option<DescriptionLine> {
        description_line(line)
    }

    fn step(&mut self, said: DescriptionLine) -> Result<(), Refusal> {
        *self = self.next(said)?;
        Ok(())
    }
}
