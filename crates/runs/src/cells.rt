// The machines with their registers in a list of cells.
ghost use Rattle.runs.specs.Cells.{CellsEndAsWritten, CellsRun, CellsStep, CellsWritten};
ghost use Rattle.runs.specs.Landing.{LandsAsListed, LandsByWriter};

// On cells a step is a step, a run a run and written order written order; the ends are the same.
pub fn cells_run_alike<V, M, F>()
    ensures step { CellsStep V M F }
    ensures run { CellsRun V M F }
    ensures written { CellsWritten V M F }
    ensures ends { CellsEndAsWritten V M F }
{}

// A landing is one pass over the results in ascending order of their writers.
pub fn lands_in_one_pass<V>()
    ensures ordered { LandsByWriter V }
    ensures listed { LandsAsListed V }
{}
