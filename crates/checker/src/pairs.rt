// The verdict on a schedule.
ghost use Rattle.std.specs.Prelude.{◌<◌, length, MatchOption};
ghost use Rattle.checker.specs.Pairs.{KeptAt, KeptFrom, AllKept, Found};

use crate::dependence::Pair;
use crate::schedule::Schedule;
use operations::Violation;

impl<'a> Schedule<'a> {
    // A dependence of operation `j` on operation `i` that is broken, where there is one.
    fn between(self, i: usize, j: usize) -> Option<Violation>
        requires { (i < j) × (j < length self.placed.now) }
        ensures { MatchOption result (KeptAt self.entry.placed.now i j) (λ v. Found self.entry.last self.entry.placed.now v) }
    {
        let pair = Pair {
            earlier: &self.placed[i],
            later: &self.placed[j],
        };
        let found = pair.first_broken()?;
        // `as`, for the numbers of operations are proved to fit.
        Some(Violation {
            dependence: found.dependence,
            place: found.place,
            first: i as u8,
            second: j as u8,
            least: pair.least(found.dependence, self.last),
        })
    }

    // A dependence of operation `j` on an earlier one that is broken, where there is one.
    fn against_earlier(self, j: usize) -> Option<Violation>
        requires { j < length self.placed.now }
        ensures { MatchOption result (KeptFrom self.entry.placed.now j) (λ v. Found self.entry.last self.entry.placed.now v) }
    {
        // By number, as below: over `enumerate` the search for a proof loses which operation stands at the number.
        (0..j).find_map(|i| self.between(i, j))
    }

    // A broken dependence, where there is one.
    pub(crate) fn first_broken(self) -> Option<Violation>
        ensures { MatchOption result (AllKept self.entry.placed.now (length self.entry.placed.now)) (λ v. Found self.entry.last self.entry.placed.now v) }
    {
        (0..self.placed.len()).find_map(|j| self.against_earlier(j))
    }
}
