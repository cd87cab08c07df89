// What an operation does with the values that it has read.
ghost use Rattle.std.specs.Prelude.{◌≡◌, false};
ghost use Rattle.operations.specs.Effects.{target_write, effect_of, unguarded};

use crate::operation::{Form, Operation};
use crate::targets::Target;
use registers::{General, Write};

#[derive(Clone, Copy)]
pub enum Effect {
    // What destination 1 and destination 2 get.
    Writes(Option<Write>, Option<Write>),
    // `to` gets the word at the address, or 0 where the memory refuses it.
    Load { to: General, address: u32 },
    Store { address: u32, value: u32 },
}

impl Target {
    fn write(self, guard: bool, c: bool) -> Option<Write>
        ensures { result ≡ target_write self guard c }
    {
        self.to.write(self.action.write(guard, c)?)
    }
}

impl Operation {
    // What it does where its guard reads `guard` and its sources give `first` and `second`.
    pub fn effect(&self, guard: bool, first: u32, second: u32) -> Effect
        ensures value { result ≡ effect_of self.now.form guard first second }
        ensures idle { guard ≡ false → result ≡ unguarded self.now.form }
    {
        match self.form {
            Form::Compare {
                condition,
                targets,
                ..
            } => {
                let c = condition.holds(first, second);
                Effect::Writes(
                    targets.first.write(guard, c),
                    targets.second.write(guard, c),
                )
            }
            _ if !guard => Effect::Writes(None, None),
            Form::Binary { opcode, to, .. } => Effect::Writes(
                to.write(opcode.result(first, second)),
                None,
            ),
            Form::Unary { opcode, to, .. } => Effect::Writes(to.write(opcode.result(first)), None),
            Form::Load { to, .. } => Effect::Load { to, address: first },
            Form::Store { .. } => Effect::Store {
                address: first,
                value: second,
            },
        }
    }
}
