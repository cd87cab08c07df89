// Runs in which every place has its history in written order.
ghost use Rattle.runs.specs.Ends.{AlwaysEndsAsWritten, EndsAsWritten, FaultAsWritten, ReadsAsWritten, RunsAsWritten};

// Each operation finds what it finds in written order, and does what it does there; the end is that of written order.
pub fn runs_as_written<V, M, F>()
    ensures reads { ReadsAsWritten V M F }
    ensures until { RunsAsWritten V M F }
    ensures ends { EndsAsWritten V M F }
    ensures fault { FaultAsWritten V M F }
{}

// Where a schedule has those histories at every timing, it ends as written order does at every timing.
pub fn always_ends_as_written<V, M, F>()
    ensures { AlwaysEndsAsWritten V M F }
{}
