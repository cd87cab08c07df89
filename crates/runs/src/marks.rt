// Runs in which each place holds the number of the operation that wrote it.
ghost use Rattle.runs.specs.Marks.{MarksAsWritten, MarksByLanding, MarksByPosition};

// With the histories of written order an operation finds the mark of the highest writer below it.
pub fn marks_as_written()
    ensures { MarksAsWritten }
{}

// A register holds the mark of the last landing, of those that land together the highest; the memory that of the last position.
pub fn marks_in_any_schedule()
    ensures registers { MarksByLanding }
    ensures memory { MarksByPosition }
{}
