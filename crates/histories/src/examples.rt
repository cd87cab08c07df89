// Two histories written out, and a schedule that keeps all dependences.
ghost use Rattle.histories.specs.Examples.{WrittenExample, ScheduledExample, SerialIsKept};

// Four operations in written order.
pub fn written_example()
    ensures { WrittenExample }
{}

// The same four in a schedule that breaks their dependences.
pub fn scheduled_example()
    ensures { ScheduledExample }
{}

// One operation after the other keeps every dependence.
pub fn serial_is_kept()
    ensures { SerialIsKept }
{}
