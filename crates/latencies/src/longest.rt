ghost use Rattle.std.specs.Prelude.{[]};
ghost use Rattle.latencies.specs.Tables.{longest_table};

use crate::source::Latencies;
use blocks::Bounds;

#[derive(Clone, Copy)]
pub struct Longest;

impl Latencies for Longest {
    ghost table = { λ _ _. longest_table };

    ghost loan = { λ _. [] };

    fn ask(&self, _operation: u8, bounds: Bounds) -> u8 {
        bounds.longest
    }

    fn turn(&mut self) {}
}
