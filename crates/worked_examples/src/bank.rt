// What the registers of a kind hold.
ghost use Rattle.std.specs.Prelude.{◌≡◌};
ghost use Rattle.worked_examples.specs.Banks.{cell, with_cell};

use registers::{Banked, RegisterNumber};

// By number.
#[derive(Clone, Copy)]
pub struct Bank<T> {
    pub fixed: [T; 32],
    pub rotating: [T; 32],
}

impl<T: Copy> Bank<T> {
    pub fn get<const BITS: usize>(&self, register: Banked<RegisterNumber, BITS>) -> T
        ensures { (other : T) → result ≡ cell other self.now register.entry }
    {
        match register {
            Banked::Static(n) => self.fixed[usize::from(n.get())],
            Banked::Rotating(n) => self.rotating[usize::from(n.get())],
        }
    }

    pub fn set<const BITS: usize>(&mut self, register: Banked<RegisterNumber, BITS>, value: T)
        ensures { self.new ≡ with_cell self.old register.entry value }
    {
        match register {
            Banked::Static(n) => self.fixed[usize::from(n.get())] = value,
            Banked::Rotating(n) => self.rotating[usize::from(n.get())] = value,
        }
    }
}
