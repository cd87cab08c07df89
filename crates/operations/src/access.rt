// What an operation reads and writes, whether it acts or not.
ghost use Rattle.std.specs.Prelude.{◌≡◌};
ghost use Rattle.std.specs.Option.{option_map, option_flatten};
ghost use Rattle.registers.specs.Registers.{is_place};
ghost use Rattle.operations.specs.Access.{sources_of, source_place, source_constant, reads_of, writes_of, class_of, memory_read, memory_written, destination_places, read_list, write_list, among};

use crate::operation::{Form, Operation, Source};
use registers::Place;

// Its guard and sources, each where it is a place, and the memory for a load.
#[derive(Clone, Copy)]
pub struct Reads {
    pub guard: Option<Place>,
    pub first: Option<Place>,
    pub second: Option<Place>,
    pub memory: Option<Place>,
}

// Its destinations, each where it is a place, and the memory for a store.
#[derive(Clone, Copy)]
pub struct Writes {
    pub first: Option<Place>,
    pub second: Option<Place>,
    pub memory: Option<Place>,
}

// What a slot of the machine may take.
#[derive(Clone, Copy, PartialEq, Eq, Debug)]
pub enum Class {
    Integer,
    Memory,
    Compare,
}

// Whether there is a place, and it is this one.
fn is_at(found: Option<Place>, place: Place) -> bool
    ensures { result ≡ is_place place found }
{
    found == Some(place)
}

impl Reads {
    // Whether the place is among those read.
    pub fn has(&self, place: Place) -> bool
        ensures { result ≡ among place (read_list self.now) }
    {
        is_at(self.guard, place)
            || is_at(self.first, place)
            || is_at(self.second, place)
            || is_at(self.memory, place)
    }
}

impl Writes {
    // Whether the place is among those written.
    pub fn has(&self, place: Place) -> bool
        ensures { result ≡ among place (write_list self.now) }
    {
        is_at(self.first, place) || is_at(self.second, place) || is_at(self.memory, place)
    }
}

impl Source {
    // What it always gives, where that is fixed: a literal, modulo 2^32, and r0.
    pub fn constant(self) -> Option<u32>
        ensures { result ≡ source_constant self }
    {
        match self {
            Source::Register(g) => g.constant(),
            Source::Literal(z) => Some(z.cast_unsigned()),
        }
    }

    pub fn place(self) -> Option<Place>
        ensures { result ≡ source_place self }
    {
        match self {
            Source::Register(g) => g.place(),
            Source::Literal(_) => None,
        }
    }
}

impl Operation {
    // Source 1 and source 2; of a store, the address and the value.
    pub fn sources(&self) -> (Option<Source>, Option<Source>)
        ensures { result ≡ sources_of self.now.form }
    {
        match self.form {
            Form::Binary { first, second, .. } => (Some(first), Some(second)),
            Form::Unary { source, .. } => (Some(source), None),
            Form::Compare { first, second, .. } => (Some(first), Some(second)),
            Form::Load { address, .. } => (Some(Source::Register(address)), None),
            Form::Store { address, value } => (
                Some(Source::Register(address)),
                Some(Source::Register(value)),
            ),
        }
    }

    pub fn class(&self) -> Class
        ensures { result ≡ class_of self.now.form }
    {
        match self.form {
            Form::Binary { .. } | Form::Unary { .. } => Class::Integer,
            Form::Compare { .. } => Class::Compare,
            Form::Load { .. } | Form::Store { .. } => Class::Memory,
        }
    }

    // The memory for a load; as below, a line that names its own form.
    fn memory_read(&self) -> Option<Place>
        ensures { result ≡ memory_read self.now.form }
    {
        matches!(self.form, Form::Load { .. }).then_some(Place::Memory)
    }

    // The memory for a store.
    fn memory_written(&self) -> Option<Place>
        ensures { result ≡ memory_written self.now.form }
    {
        matches!(self.form, Form::Store { .. }).then_some(Place::Memory)
    }

    // Destination 1 and destination 2, each where it is a place.
    fn destinations(&self) -> (Option<Place>, Option<Place>)
        ensures { result ≡ destination_places self.now.form }
    {
        match self.form {
            Form::Binary { to, .. } => (to.place(), None),
            Form::Unary { to, .. } => (to.place(), None),
            Form::Compare { targets, .. } => (targets.first.to.place(), targets.second.to.place()),
            Form::Load { to, .. } => (to.place(), None),
            Form::Store { .. } => (None, None),
        }
    }

    pub fn reads(&self) -> Reads
        ensures { result ≡ reads_of self.now }
    {
        let (first, second) = self.sources();
        Reads {
            guard: self.guard.place(),
            first: first.and_then(Source::place),
            second: second.and_then(Source::place),
            memory: self.memory_read(),
        }
    }

    pub fn writes(&self) -> Writes
        ensures { result ≡ writes_of self.now }
    {
        let (first, second) = self.destinations();
        Writes {
            first,
            second,
            memory: self.memory_written(),
        }
    }
}
