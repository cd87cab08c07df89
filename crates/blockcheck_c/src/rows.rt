// One verdict as six numbers.
ghost use Rattle.std.specs.Prelude.{◌≡◌, ◌≤◌};
ghost use Rattle.blockcheck_c.specs.Numbers.{bank_number, register_number, place_number, kind_number, row_of};

use operations::Dependence;
use registers::{Banked, Place, Register, RegisterNumber};
use verdicts::{BlockVerdict, Standing};

// C is handed numbers for places and kinds: r0 to r31, rr0 to rr31, p0 to p31, rp0 to rp31 from 0 up; then the memory, and no place.
const BANK: u32 = 32;

const MEMORY: u32 = 128;

const NO_PLACE: u32 = 129;

// The number of a register whose kind has the numbers from `first` on.
fn bank_number<const BITS: usize>(first: u32, register: Banked<RegisterNumber, BITS>) -> u32
    requires { first ≤ 64 }
    ensures { result ≡ bank_number first register.entry }
{
    match register {
        Banked::Static(n) => first + u32::from(n.get()),
        Banked::Rotating(n) => first + BANK + u32::from(n.get()),
    }
}

fn register_number(register: Register) -> u32
    ensures { result ≡ register_number register }
{
    match register {
        Register::General(g) => bank_number(0, g),
        Register::Predicate(p) => bank_number(2 * BANK, p),
    }
}

fn place_number(place: Place) -> u32
    ensures { result ≡ place_number place }
{
    match place {
        Place::Register(register) => register_number(register),
        Place::Memory => MEMORY,
    }
}

fn kind_number(dependence: Dependence) -> u32
    ensures { result ≡ kind_number dependence }
{
    match dependence {
        Dependence::Flow => 1,
        Dependence::Anti => 2,
        Dependence::Output => 3,
        Dependence::Memory => 4,
    }
}

pub(crate) fn row(verdict: BlockVerdict) -> [u32; 6]
    ensures { result ≡ row_of verdict }
{
    let block = u32::from(verdict.block);
    match verdict.standing {
        Standing::Kept => [block, 0, NO_PLACE, 0, 0, 0],
        Standing::Violated(v) => [
            block,
            kind_number(v.dependence),
            place_number(v.place),
            u32::from(v.first),
            u32::from(v.second),
            u32::from(v.least),
        ],
        Standing::Unplaced(lowest) => [block, 5, NO_PLACE, u32::from(lowest), 0, 0],
    }
}
