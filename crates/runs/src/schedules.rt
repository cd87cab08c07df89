// Runs in any schedule.
ghost use Rattle.runs.specs.Ends.{LowestOfOutcomes, RunFinishes, StepCounts};

// Past the last landing everything has issued and landed; the counts of a step; the lowest fault of a log.
pub fn runs_in_any_schedule<V, M, F>()
    ensures finishes { RunFinishes V M F }
    ensures counts { StepCounts V M F }
    ensures lowest { LowestOfOutcomes V M F }
{}
