// What is assumed of a run can be met.
ghost use Rattle.runs.specs.Assumptions.{MarksWithinAccesses, MarksWithinRegisters, SerialRunsAsWritten};

// Marks keep to the accesses of their operations and to their registers; one operation after the other runs as written.
pub fn assumptions_are_met()
    ensures accesses { MarksWithinAccesses }
    ensures registers { MarksWithinRegisters }
    ensures serial { SerialRunsAsWritten }
{}
