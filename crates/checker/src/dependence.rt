// The dependences of one placed operation on an earlier one.
ghost use Rattle.std.specs.Prelude.{◌≡◌, true, false, not, ◌&&◌, MatchOption};
ghost use Rattle.checker.specs.Pairs.{linked, holds, least_for, broken};

use crate::placed::Placed;
use operations::Dependence;
use registers::Place;

// Two placed operations, in written order.
#[derive(Clone, Copy)]
pub(crate) struct Pair<'a> {
    pub earlier: &'a Placed,
    pub later: &'a Placed,
}

impl<'a> Pair<'a> {
    // Whether `later` depends on `earlier` in this way, at this place.
    fn linked(self, dependence: Dependence, place: Place) -> bool
        ensures { result ≡ linked dependence place self.entry.earlier.now self.entry.later.now }
    {
        let Pair { earlier, later } = self;
        match dependence {
            Dependence::Flow => earlier.writes.has(place) && later.reads.has(place),
            Dependence::Anti => earlier.reads.has(place) && later.writes.has(place),
            Dependence::Output => earlier.writes.has(place) && later.writes.has(place),
            Dependence::Memory => {
                (earlier.writes.has(place) && (later.writes.has(place) || later.reads.has(place)))
                    || (earlier.reads.has(place) && later.writes.has(place))
            }
        }
    }

    // Whether such a dependence holds.
    fn holds(self, dependence: Dependence) -> bool
        ensures { result ≡ holds dependence self.entry.earlier.now self.entry.later.now }
    {
        let Pair { earlier, later } = self;
        match dependence {
            Dependence::Flow => earlier.cycle + earlier.longest <= later.cycle,
            Dependence::Anti => earlier.cycle < later.cycle + later.shortest,
            Dependence::Output => earlier.cycle + earlier.longest < later.cycle + later.shortest,
            Dependence::Memory => {
                earlier.cycle < later.cycle
                    || (earlier.cycle == later.cycle && earlier.slot < later.slot)
            }
        }
    }

    pub(crate) fn breaks(self, dependence: Dependence, place: Place) -> bool
        ensures { result ≡ broken dependence place self.entry.earlier.now self.entry.later.now }
    {
        self.linked(dependence, place) && !self.holds(dependence)
    }

    // The least cycle of `later` at which such a dependence holds, on a machine with this last slot.
    pub(crate) fn least(self, dependence: Dependence, last: u8) -> u16
        ensures { result ≡ least_for dependence last self.entry.earlier.now self.entry.later.now }
    {
        let Pair { earlier, later } = self;
        match dependence {
            Dependence::Flow => earlier.cycle + earlier.longest,
            Dependence::Anti => (earlier.cycle + 1).saturating_sub(later.shortest),
            Dependence::Output => (earlier.cycle + earlier.longest + 1).saturating_sub(
                later.shortest,
            ),
            Dependence::Memory => if earlier.slot == last {
                earlier.cycle + 1
            } else {
                earlier.cycle
            },
        }
    }
}
