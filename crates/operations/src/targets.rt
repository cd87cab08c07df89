// The two destinations of a compare.
ghost use Rattle.std.specs.Prelude.{◌≡◌, false};
ghost use Rattle.registers.specs.Registers.{one_place};

use opcodes::Action;
use registers::Predicate;

#[derive(Clone, Copy, PartialEq, Eq, Debug)]
pub struct Target {
    pub to: Predicate,
    pub action: Action,
}

// They are never one place.
#[derive(Clone, Copy, PartialEq, Eq, Debug)]
pub struct Targets {
    pub first: Target,
    pub second: Target,
    ghost apart: { one_place first.to second.to ≡ false },
}
