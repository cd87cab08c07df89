// Why a call is refused.
ghost use Rattle.std.specs.Prelude.{◌≡◌};
ghost use Rattle.operations.specs.Refusals.{number_of};

use registers::Place;

#[derive(Clone, Copy, PartialEq, Eq, Debug)]
pub enum Dependence {
    Flow,
    Anti,
    Output,
    Memory,
}

// A dependence that a schedule breaks: operation `first` stands before `second` in written order.
#[derive(Clone, Copy, PartialEq, Eq, Debug)]
pub struct Violation {
    pub dependence: Dependence,
    pub place: Place,
    pub first: u8,
    pub second: u8,
    // The least cycle of `second` at which this dependence holds.
    pub least: u16,
}

// One case for each row of the table of refusals, in its order.
#[derive(Clone, Copy, PartialEq, Eq, Debug)]
pub enum Refusal {
    Unreadable,
    NoSuch,
    BlockFull,
    WrongOperands,
    BeyondLimit,
    ClassNotTaken,
    Occupied,
    DuringVisit,
    OutsideVisit,
    Unfinished,
    Finished,
    // The lowest operation that has no cycle and slot.
    Unplaced(u8),
    Violated(Violation),
    NoSuchWord,
    StoreBarred,
    WrongSections,
    BufferTooShort,
}

impl Refusal {
    // The number of its row.
    pub fn number(self) -> u8
        ensures { result ≡ number_of self }
    {
        match self {
            Refusal::Unreadable => 1,
            Refusal::NoSuch => 2,
            Refusal::BlockFull => 3,
            Refusal::WrongOperands => 4,
            Refusal::BeyondLimit => 5,
            Refusal::ClassNotTaken => 6,
            Refusal::Occupied => 7,
            Refusal::DuringVisit => 8,
            Refusal::OutsideVisit => 9,
            Refusal::Unfinished => 10,
            Refusal::Finished => 11,
            Refusal::Unplaced(_) => 12,
            Refusal::Violated(_) => 13,
            Refusal::NoSuchWord => 14,
            Refusal::StoreBarred => 15,
            Refusal::WrongSections => 16,
            Refusal::BufferTooShort => 17,
        }
    }
}
