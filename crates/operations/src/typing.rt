// A raw operation as a typed one, or why it is none.
ghost use Rattle.std.specs.Prelude.{◌≡◌, Bool, Option};
ghost use Rattle.std.specs.Option.{option_map, option_flatten};
ghost use Rattle.registers.specs.Registers.{one_place};
ghost use Rattle.operations.specs.Raw.{Accepts};
ghost use Rattle.operations.specs.Typing.{general_named, predicate_named, source_of, address_of, zero, one, two, targets_of, form_of, names_exist, typed_of, each, known_name, known_operand};

use crate::operation::{Form, Operation, Source};
use crate::raw::{Opcode, Operand, RawOperation, UpToTwo};
use crate::refusal::Refusal;
use crate::targets::{Target, Targets};
use opcodes::Action;
use registers::{General, Predicate, RegisterName};

// What can name registers.
trait Named: Copy {
    // Whether there is each register that it names.
    ghost known: { Self → Bool };

    fn exists(self) -> bool
        ensures { result ≡ known self };
}

// What can stand where a `T` is wanted.
trait Means<T>: Copy {
    // The `T` that it means, where it means one.
    ghost meant: { Self → Option T };

    fn meant(self) -> Option<T>
        ensures { result ≡ meant self };
}

impl Named for RegisterName {
    ghost known = { known_name };

    fn exists(self) -> bool {
        self.register().is_some()
    }
}

impl Named for Operand {
    ghost known = { known_operand };

    fn exists(self) -> bool {
        match self {
            Operand::Register(name) => name.exists(),
            Operand::Literal(_) => true,
        }
    }
}

impl Means<General> for RegisterName {
    ghost meant = { general_named };

    fn meant(self) -> Option<General> {
        match self {
            RegisterName::General(name) => name.register(),
            RegisterName::Predicate(_) => None,
        }
    }
}

impl Means<Predicate> for RegisterName {
    ghost meant = { predicate_named };

    fn meant(self) -> Option<Predicate> {
        match self {
            RegisterName::General(_) => None,
            RegisterName::Predicate(name) => name.register(),
        }
    }
}

impl Means<Source> for Operand {
    ghost meant = { source_of };

    fn meant(self) -> Option<Source> {
        match self {
            Operand::Register(name) => Some(Source::Register(name.meant()?)),
            Operand::Literal(z) => Some(Source::Literal(z)),
        }
    }
}

// A general register: what a load and a store take.
impl Means<General> for Operand {
    ghost meant = { address_of };

    fn meant(self) -> Option<General> {
        match self {
            Operand::Register(name) => name.meant(),
            Operand::Literal(_) => None,
        }
    }
}

impl<N: Named> UpToTwo<N> {
    fn exist(self) -> bool
        ensures { result ≡ each N.known self }
    {
        match self {
            UpToTwo::Zero => true,
            UpToTwo::One(a) => a.exists(),
            UpToTwo::Two(a, b) => a.exists() && b.exists(),
        }
    }
}

impl<N: Copy> UpToTwo<N> {
    fn zero(self) -> Option<()>
        ensures { result ≡ zero self }
    {
        match self {
            UpToTwo::Zero => Some(()),
            _ => None,
        }
    }

    fn one<T>(self) -> Option<T>
    where
        N: Means<T>,
        ensures { result ≡ one N.meant self }
    {
        match self {
            UpToTwo::One(a) => a.meant(),
            _ => None,
        }
    }

    fn two<T: Drop>(self) -> Option<(T, T)>
    where
        N: Means<T>,
        ensures { result ≡ two N.meant self }
    {
        match self {
            UpToTwo::Two(a, b) => Some((a.meant()?, b.meant()?)),
            _ => None,
        }
    }
}

// Whether two predicates are one place.
fn clash(p: Predicate, q: Predicate) -> bool
    ensures { result ≡ one_place p q }
{
    p.place().is_some() && p == q
}

// The two destinations of a compare, where they are not one place. No `then`: a closure that makes them would have to require this test once more.
fn unless_one(first: Target, second: Target) -> Option<Targets>
    ensures { result ≡ targets_of first.action second.action (first.to, second.to) }
{
    if clash(first.to, second.to) {
        None
    } else {
        Some(Targets { first, second })
    }
}

impl UpToTwo<RegisterName> {
    // Two predicates with their actions, where they are not one place.
    fn targets(self, a: Action, b: Action) -> Option<Targets>
        ensures { result ≡ option_flatten (option_map (targets_of a b) (two predicate_named self)) }
    {
        let (p, q) = self.two()?;
        unless_one(Target { to: p, action: a }, Target { to: q, action: b })
    }
}

impl RawOperation {
    // Whether there is each register that is named.
    fn names_exist(self) -> bool
        ensures { result ≡ names_exist self }
    {
        self.guard.register().is_some() && self.destinations.exist() && self.sources.exist()
    }

    // The form that its opcode and operands make, where they fit.
    fn form(self) -> Option<Form>
        ensures { result ≡ form_of self.opcode self.destinations self.sources }
    {
        match self.opcode {
            Opcode::Binary(opcode) => {
                let to = self.destinations.one()?;
                let (first, second) = self.sources.two()?;
                Some(Form::Binary {
                    opcode,
                    to,
                    first,
                    second,
                })
            }
            Opcode::Unary(opcode) => Some(Form::Unary {
                opcode,
                to: self.destinations.one()?,
                source: self.sources.one()?,
            }),
            Opcode::Compare(condition, a, b) => {
                let targets = self.destinations.targets(a, b)?;
                let (first, second) = self.sources.two()?;
                Some(Form::Compare {
                    condition,
                    targets,
                    first,
                    second,
                })
            }
            Opcode::Load => Some(Form::Load {
                to: self.destinations.one()?,
                address: self.sources.one()?,
            }),
            Opcode::Store => {
                self.destinations.zero()?;
                let (address, value) = self.sources.two()?;
                Some(Form::Store { address, value })
            }
        }
    }

    fn operation(self) -> Result<Operation, Refusal>
        ensures { result ≡ typed_of self }
    {
        if !self.names_exist() {
            return Err(Refusal::NoSuch);
        }
        let guard = self.guard.register().ok_or(Refusal::NoSuch)?;
        let form = self.form().ok_or(Refusal::WrongOperands)?;
        Ok(Operation { guard, form })
    }

    // The typed operation. Refused where a register is missing, and then where the operands do not fit the opcode.
    pub fn typed(self) -> Result<Operation, Refusal>
        ensures value { result ≡ typed_of self }
        ensures exact { Accepts self result }
    {
        self.operation()
    }
}
