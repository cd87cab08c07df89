// How a description is made, and what it says.
ghost use Rattle.std.specs.Prelude.{◌≡◌, [], ◌∷◌};
ghost use Rattle.blocks.specs.Steps.{Did};
ghost use Rattle.blocks.specs.Machine.{takes_some, slot_taking, serves, slots_of, add_slot, slot_at, takes_class, bounded, bounds_of};

use crate::description::{Bounds, Description, Slot, Slots};
use operations::{Class, Form, Operation, Refusal};

// The longest time that a result may take.
const LONGEST: u8 = 31;

// How many slots there may be.
pub const SLOTS: u8 = 8;

impl Slot {
    // A slot that takes these classes, if there is one among them.
    pub fn new(integer: bool, memory: bool, compare: bool) -> Option<Slot>
        ensures { result ≡ slot_taking integer memory compare }
    {
        // No `then`: a closure that makes a slot would have to require this test once more.
        let some = integer || memory || compare;
        if some {
            Some(Slot {
                integer,
                memory,
                compare,
            })
        } else {
            None
        }
    }

    pub(crate) fn serves(&self, class: Class) -> bool
        ensures { result ≡ serves self.now class }
    {
        match class {
            Class::Integer => self.integer,
            Class::Memory => self.memory,
            Class::Compare => self.compare,
        }
    }
}

impl Slots {
    pub fn new(first: Slot) -> Slots
        ensures { slots_of result ≡ first ∷ [] }
    {
        Slots {
            slots: [first; 8],
            count: 1,
        }
    }

    // Adds a slot behind the others. Refused where there are 8.
    pub fn add(&mut self, slot: Slot) -> Result<(), Refusal>
        ensures { Did (slots_of self.old) (slots_of self.new) result (add_slot self.old slot) }
    {
        if self.count >= SLOTS {
            return Err(Refusal::NoSuch);
        }
        self.slots[usize::from(self.count)] = slot;
        self.count += 1;
        Ok(())
    }

    // The slot of that number, where there is one.
    pub(crate) fn get(&self, slot: u8) -> Option<Slot>
        ensures { result ≡ slot_at (slots_of self.now) slot }
    {
        self.slots[..usize::from(self.count)]
            .get(usize::from(slot))
            .copied()
    }
}

impl Bounds {
    // Refused where a bound is 0 or above 31, or the longest is below the shortest.
    pub fn new(shortest: u8, longest: u8) -> Result<Bounds, Refusal>
        ensures { result ≡ bounded shortest longest }
    {
        if shortest == 0 || longest < shortest || longest > LONGEST {
            return Err(Refusal::BeyondLimit);
        }
        Ok(Bounds { shortest, longest })
    }
}

impl Description {
    // Whether there is such a slot, and it takes the class.
    pub fn takes(&self, slot: u8, class: Class) -> bool
        ensures { result ≡ takes_class (slots_of self.now.slots) slot class }
    {
        self.slots.get(slot).is_some_and(|slot| slot.serves(class))
    }

    // How long the result of an operation takes; a store has no result.
    pub fn latency(&self, operation: &Operation) -> Option<Bounds>
        ensures { result ≡ bounds_of self.now operation.now }
    {
        match operation.form {
            Form::Binary { .. } | Form::Unary { .. } => Some(self.integer),
            Form::Compare { .. } => Some(self.compare),
            Form::Load { .. } => Some(self.load),
            Form::Store { .. } => None,
        }
    }
}
