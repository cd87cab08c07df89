// The first dependence that a pair of placed operations breaks.
ghost use Rattle.checker.specs.Pairs.{Unbroken, Breaks, PartKept, PairKept, parts_of, broken};
ghost use Rattle.std.specs.Prelude.{◌≡◌, MatchOption};
ghost use Rattle.std.specs.Bool.{then_some};
ghost use Rattle.operations.specs.declared.refusal.Dependence.TheVariants.{Memory};

use crate::dependence::Pair;
use crate::placed::Placed;
use operations::Dependence;
use registers::{Place, Register};

// A dependence, and the place at which it is broken.
#[derive(Clone, Copy)]
pub(crate) struct Break {
    pub dependence: Dependence,
    pub place: Place,
}

// What it writes and reads, part by part.
fn parts(a: &Placed) -> [Option<Place>; 7]
    ensures { result ≡ parts_of a.now }
{
    [
        a.writes.first,
        a.writes.second,
        a.writes.memory,
        a.reads.guard,
        a.reads.first,
        a.reads.second,
        a.reads.memory,
    ]
}

impl<'a> Pair<'a> {
    fn at_register(self, x: Register) -> Option<Dependence>
        ensures { MatchOption result (Unbroken x self.entry.earlier.now self.entry.later.now) (λ k. Breaks k (Place.Register x) self.entry.earlier.now self.entry.later.now) }
    {
        let place = Place::Register(x);
        // A chain of tests: a search through an array of the three would name each once more.
        if self.breaks(Dependence::Flow, place) {
            Some(Dependence::Flow)
        } else if self.breaks(Dependence::Anti, place) {
            Some(Dependence::Anti)
        } else if self.breaks(Dependence::Output, place) {
            Some(Dependence::Output)
        } else {
            None
        }
    }

    fn at_part(self, part: Option<Place>) -> Option<Break>
        ensures { MatchOption result (PartKept part self.entry.earlier.now self.entry.later.now) (λ k. Breaks k.dependence k.place self.entry.earlier.now self.entry.later.now) }
    {
        match part? {
            Place::Register(x) => Some(Break {
                dependence: self.at_register(x)?,
                place: Place::Register(x),
            }),
            Place::Memory => None,
        }
    }

    fn in_memory(self) -> Option<Break>
        ensures { result ≡ then_some (broken Memory Place.Memory self.entry.earlier.now self.entry.later.now) (record { dependence = Memory; place = Place.Memory }) }
    {
        self.breaks(Dependence::Memory, Place::Memory)
            .then_some(Break {
                dependence: Dependence::Memory,
                place: Place::Memory,
            })
    }

    // A dependence of `later` on `earlier` that is broken, where there is one.
    pub(crate) fn first_broken(self) -> Option<Break>
        ensures { MatchOption result (PairKept self.entry.earlier.now self.entry.later.now) (λ k. Breaks k.dependence k.place self.entry.earlier.now self.entry.later.now) }
    {
        let parts = parts(self.earlier);
        let found = parts.iter().find_map(|&part| self.at_part(part));
        found.or(self.in_memory())
    }
}
