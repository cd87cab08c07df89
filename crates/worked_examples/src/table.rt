// The table of worked results.
ghost use Rattle.worked_examples.specs.Table.{WorkedResults};

// Each row of the table holds.
pub fn worked_results()
    ensures { WorkedResults }
{}
