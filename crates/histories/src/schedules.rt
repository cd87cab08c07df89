// Which schedules give every place its history in written order.
ghost use Rattle.histories.specs.Schedule.{KeptIsAlwaysSame, KeptIsWholeSame, BrokenAlwaysShows};

// Every dependence is kept if and only if all histories are those of written order, at every timing and whatever is withheld.
pub fn kept_is_always_same()
    ensures { KeptIsAlwaysSame }
{}

// The same with nothing withheld.
pub fn kept_is_whole_same()
    ensures { KeptIsWholeSame }
{}

// A broken dependence gives its place another history, at the longest latency of the first and the shortest of the second.
pub fn broken_always_shows()
    ensures { BrokenAlwaysShows }
{}
