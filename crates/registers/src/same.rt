// When two numbers, registers or places are one. By hand: the contract of `==` says which test it is and that it tells whether two are
// one, and a derive says only that the fields are equal.
ghost use Rattle.std.specs.Prelude.{◌≡◌, ◌==◌, nat_eq};
ghost use Rattle.registers.specs.Registers.{alike, same_register, same_place, Tells};
ghost use Rattle.registers.specs.Alike.{alike_per, alike_equiv};
ghost use Rattle.std.specs.Ordering.{on};
ghost use Rattle.std.specs.Cmp.Rules.{comparing};
ghost use Rattle.std.proofs.Common.{rules, arith};
ghost use Rattle.std.specs.Cmp as Keys;

use crate::banked::Banked;
use crate::number::NumberBelow;
use crate::register::{Place, Register};

// Numbers whose `==` tells whether two are one.
pub trait Telling: PartialEq {
    fn same(&self, other: &Self) -> bool
        ensures { Tells (Self.eq self.now other.now) result (self.now ≡ other.now) };
}

impl Telling for u8 {
    fn same(&self, other: &u8) -> bool {
        *self == *other
    }
}

impl Telling for u64 {
    fn same(&self, other: &u64) -> bool {
        *self == *other
    }
}

impl<const LIMIT: u8> PartialEq for NumberBelow<LIMIT> {
    ghost eq = { on (λ v. v.number) nat_eq };

    ghost laws = { Keys.partial_equiv_from_equiv (first_of (Prim.search (comparing, rules), Prim.grind (arith, Self.row.coded.inj))) };

    fn eq(&self, other: &NumberBelow<LIMIT>) -> bool
        ensures test { result ≡ (self.now.number == other.now.number) }
        ensures tells { Tells (self.now.number == other.now.number) result (self.now ≡ other.now) }
    {
        self.number == other.number
    }
}

impl<const LIMIT: u8> Eq for NumberBelow<LIMIT> {
    ghost laws = { first_of (Prim.search (comparing, rules), Prim.grind (arith, Self.row.coded.inj)) };
}

impl<const LIMIT: u8> Telling for NumberBelow<LIMIT> {
    fn same(&self, other: &NumberBelow<LIMIT>) -> bool {
        *self == *other
    }
}

impl<N: Telling, const BITS: usize> PartialEq for Banked<N, BITS> {
    ghost eq = { alike N.PartialEq.eq };

    ghost laws = { alike_per N.PartialEq.laws };

    fn eq(&self, other: &Banked<N, BITS>) -> bool
        ensures test { result ≡ alike N.PartialEq.eq self.now other.now }
        ensures tells { Tells (alike N.PartialEq.eq self.now other.now) result (self.now ≡ other.now) }
    {
        match (self, other) {
            (Banked::Static(m), Banked::Static(n)) => m.same(n),
            (Banked::Rotating(m), Banked::Rotating(n)) => m.same(n),
            _ => false,
        }
    }
}

impl<N: Telling + Eq, const BITS: usize> Eq for Banked<N, BITS> {
    ghost laws = { alike_equiv N.Eq.laws };
}

impl PartialEq for Register {
    ghost eq = { same_register };

    ghost laws = { Keys.partial_equiv_from_equiv (Prim.search (comparing, rules)) };

    fn eq(&self, other: &Register) -> bool
        ensures test { result ≡ same_register self.now other.now }
        ensures tells { Tells (same_register self.now other.now) result (self.now ≡ other.now) }
    {
        match (self, other) {
            (Register::General(g), Register::General(h)) => *g == *h,
            (Register::Predicate(p), Register::Predicate(q)) => *p == *q,
            _ => false,
        }
    }
}

impl Eq for Register {
    ghost laws = { Prim.search (comparing, rules) };
}

impl PartialEq for Place {
    ghost eq = { same_place };

    ghost laws = { Keys.partial_equiv_from_equiv (Prim.search (comparing, rules)) };

    fn eq(&self, other: &Place) -> bool
        ensures test { result ≡ same_place self.now other.now }
        ensures tells { Tells (same_place self.now other.now) result (self.now ≡ other.now) }
    {
        match (self, other) {
            (Place::Register(x), Place::Register(y)) => *x == *y,
            (Place::Memory, Place::Memory) => true,
            _ => false,
        }
    }
}

impl Eq for Place {
    ghost laws = { Prim.search (comparing, rules) };
}
