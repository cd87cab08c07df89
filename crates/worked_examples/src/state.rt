// Registers, and operations executed on them in written order. RRB stays 0.
ghost use Rattle.std.specs.Prelude.{◌≡◌};
ghost use Rattle.worked_examples.specs.Execution.{word_in, bit_in, source_in, effect_in, writes_in, applied, cleared};

use crate::bank::Bank;
use operations::{Effect, Operation, Source};
use registers::{General, Predicate, Write};

#[derive(Clone, Copy)]
pub struct State {
    pub words: Bank<u32>,
    pub bits: Bank<bool>,
}

impl State {
    // Every register holds 0.
    pub fn new() -> State
        ensures { result ≡ cleared }
    {
        State {
            words: Bank {
                fixed: [0; 32],
                rotating: [0; 32],
            },
            bits: Bank {
                fixed: [false; 32],
                rotating: [false; 32],
            },
        }
    }

    pub fn word(&self, g: General) -> u32
        ensures { result ≡ word_in self.now g }
    {
        g.constant().unwrap_or_else(|| self.words.get(g))
    }

    pub fn bit(&self, p: Predicate) -> bool
        ensures { result ≡ bit_in self.now p }
    {
        p.constant().unwrap_or_else(|| self.bits.get(p))
    }

    // What a source gives; 0 where the operation has no such source.
    fn source(&self, source: Option<Source>) -> u32
        ensures { result ≡ source_in self.now source }
    {
        source.map_or(0, |source| match source {
            Source::Register(g) => self.word(g),
            Source::Literal(z) => z.cast_unsigned(),
        })
    }

    // What the operation does as things stand.
    fn effect(&self, operation: &Operation) -> Effect
        ensures { result ≡ effect_in self.now operation.now }
    {
        let (first, second) = operation.sources();
        operation.effect(
            self.bit(operation.guard),
            self.source(first),
            self.source(second),
        )
    }

    fn apply(&mut self, write: Option<Write>)
        ensures { self.new ≡ applied self.old write }
    {
        if let Some(write) = write {
            match write {
                Write::Word { to, value } => self.words.set(to, value),
                Write::Bit { to, value } => self.bits.set(to, value),
            }
        }
    }

    // Executes the operation, and hands out what destinations 1 and 2 got. There is no memory: a load or a store does nothing.
    pub fn execute(&mut self, operation: &Operation) -> (Option<Write>, Option<Write>)
        ensures wrote { result ≡ writes_in (effect_in self.old operation.now) }
        ensures after { self.new ≡ applied (applied self.old result.0) result.1 }
    {
        let (first, second) = match self.effect(operation) {
            Effect::Writes(first, second) => (first, second),
            _ => (None, None),
        };
        self.apply(first);
        self.apply(second);
        (first, second)
    }
}
