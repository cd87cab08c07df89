// A written operation as it is handed in.
ghost use Rattle.std.specs.Prelude.{◌≡◌};
ghost use Rattle.lines.specs.Raw.{raw_register, raw_destinations, raw_exit, raw_operand, raw_sources, raw_operation, operand_held, literals_held};
ghost use Rattle.lines.specs.Meant.{register_meant, exit_meant, registers_meant, registers_named};
ghost use Rattle.registers.specs.Names.{register_of};
ghost use Rattle.blocks.specs.Exits.{exit_named};

use crate::written::{
    WrittenExit, WrittenOperand, WrittenOperation, WrittenRegister, WrittenSources,
};
use blocks::RawExit;
use operations::{Operand, RawOperation, UpToTwo};
use registers::{RegisterName, handed};

// `raw` here and below, and no `From`: a `From` has one fact of what it gives, and this has two, what it is and what it means.
impl WrittenRegister {
    #[tactic(auto, using(crate::proofs::Meaning::register_kept))]
    pub fn raw(self) -> RegisterName
        ensures value { result ≡ raw_register self }
        ensures meant { register_of result ≡ register_meant self }
    {
        match self {
            WrittenRegister::General(g) => RegisterName::General(g.raw()),
            WrittenRegister::Predicate(p) => RegisterName::Predicate(p.raw()),
        }
    }
}

// Destinations as they are handed in. A `map` of `UpToTwo` would be a public function with a `requires`, and there is none here.
fn destinations(written: UpToTwo<WrittenRegister>) -> UpToTwo<RegisterName>
    ensures { result ≡ raw_destinations written }
{
    match written {
        UpToTwo::Zero => UpToTwo::Zero,
        UpToTwo::One(d) => UpToTwo::One(d.raw()),
        UpToTwo::Two(d, e) => UpToTwo::Two(d.raw(), e.raw()),
    }
}

impl WrittenExit {
    // The exit as it is handed in: it names the block and the register that the line writes.
    pub fn raw(self) -> RawExit
        ensures value { result ≡ raw_exit self }
        ensures meant { exit_named result ≡ exit_meant self }
    {
        match self {
            WrittenExit::Halt => RawExit::Halt,
            WrittenExit::Next => RawExit::Next,
            WrittenExit::Goto(target) => RawExit::Goto(handed(target)),
            WrittenExit::If { predicate, target } => RawExit::If {
                predicate: predicate.raw(),
                target: handed(target),
            },
            WrittenExit::Loop(target) => RawExit::Loop(handed(target)),
        }
    }
}

impl WrittenOperand {
    // Whether 32 bits hold it.
    fn held(self) -> bool
        ensures { result ≡ operand_held self }
    {
        match self {
            WrittenOperand::Register(_) => true,
            WrittenOperand::Literal(z) => i32::try_from(z).is_ok(),
        }
    }

    // 0 stands for a literal that 32 bits do not hold.
    fn raw(self) -> Operand
        ensures { result ≡ raw_operand self }
    {
        match self {
            WrittenOperand::Register(name) => Operand::Register(name.raw()),
            WrittenOperand::Literal(z) => Operand::Literal(i32::try_from(z).unwrap_or(0)),
        }
    }
}

impl WrittenSources {
    fn raw(self) -> UpToTwo<Operand>
        ensures { result ≡ raw_sources self }
    {
        match self {
            WrittenSources::One(a) => UpToTwo::One(a.raw()),
            WrittenSources::Two(a, b) => UpToTwo::Two(a.raw(), b.raw()),
        }
    }

    fn held(self) -> bool
        ensures { result ≡ literals_held self }
    {
        match self {
            WrittenSources::One(a) => a.held(),
            WrittenSources::Two(a, b) => a.held() && b.held(),
        }
    }
}

impl WrittenOperation {
    // The operation as it is handed in, with 0 for each literal that 32 bits do not hold.
    #[tactic(auto, using(crate::proofs::Meaning::registers_kept))]
    pub fn raw(self) -> RawOperation
        ensures value { result ≡ raw_operation self }
        ensures meant { registers_named result ≡ registers_meant self }
    {
        RawOperation {
            opcode: self.opcode,
            guard: self.guard.raw(),
            destinations: destinations(self.destinations),
            sources: self.sources.raw(),
        }
    }

    // Whether 32 bits hold each literal.
    pub fn literals_held(self) -> bool
        ensures { result ≡ literals_held self.sources }
    {
        self.sources.held()
    }
}
