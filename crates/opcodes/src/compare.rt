// What a compare finds, and what it writes to a predicate.
ghost use Rattle.std.specs.Prelude.{◌≡◌};
ghost use Rattle.opcodes.specs.Compares.{holds, written};

// `Never`, `Equal`, `Less` and so on, and then their complements in the same order.
#[derive(Clone, Copy, PartialEq, Eq, Debug)]
pub enum Condition {
    Never,
    Equal,
    Less,
    LessEqual,
    LogicalLess,
    LogicalLessEqual,
    Always,
    NotEqual,
    GreaterEqual,
    Greater,
    LogicalGreaterEqual,
    LogicalGreater,
}

// The first letter: unconditional, conditional, or, and. The second: on the result as it is (normal), or on its complement.
#[derive(Clone, Copy, PartialEq, Eq, Debug)]
pub enum Action {
    Un,
    Uc,
    Cn,
    Cc,
    On,
    Oc,
    An,
    Ac,
}

impl Condition {
    // Whether the condition holds of `a` and `b`.
    pub fn holds(self, a: u32, b: u32) -> bool
        ensures { result ≡ holds self a b }
    {
        match self {
            Condition::Never => false,
            Condition::Equal => a == b,
            Condition::Less => a.cast_signed() < b.cast_signed(),
            Condition::LessEqual => a.cast_signed() <= b.cast_signed(),
            Condition::LogicalLess => a < b,
            Condition::LogicalLessEqual => a <= b,
            Condition::Always => true,
            Condition::NotEqual => a != b,
            Condition::GreaterEqual => a.cast_signed() >= b.cast_signed(),
            Condition::Greater => a.cast_signed() > b.cast_signed(),
            Condition::LogicalGreaterEqual => a >= b,
            Condition::LogicalGreater => a > b,
        }
    }
}

impl Action {
    // What is written under the guard where the comparison gave `c`; `None` where nothing is.
    pub fn write(self, guard: bool, c: bool) -> Option<bool>
        ensures { result ≡ written self guard c }
    {
        match self {
            Action::Un => Some(guard && c),
            Action::Uc => Some(guard && !c),
            Action::Cn => guard.then_some(c),
            Action::Cc => guard.then_some(!c),
            Action::On => (guard && c).then_some(true),
            Action::Oc => (guard && !c).then_some(true),
            Action::An => (guard && !c).then_some(false),
            Action::Ac => (guard && c).then_some(false),
        }
    }
}
