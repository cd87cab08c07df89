// Two runs written out.
ghost use Rattle.runs.specs.Examples.{QuickRun, SlowRun};

// One schedule at two timings: a result that lands too early is read.
pub fn example_runs()
    ensures slow { SlowRun }
    ensures quick { QuickRun }
{}
