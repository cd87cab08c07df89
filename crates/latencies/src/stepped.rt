ghost use Rattle.std.specs.Prelude.{◌≡◌, []};
ghost use Rattle.latencies.specs.Tables.{stepped_table, turned};

use crate::source::Latencies;
use blocks::Bounds;

// Takes the latencies between the bounds in turn.
#[derive(Clone, Copy)]
pub struct Stepped {
    pub turns: u32,
}

impl Stepped {
    pub fn new() -> Stepped
        ensures { result.turns ≡ 0 }
    {
        Stepped { turns: 0 }
    }
}

impl Latencies for Stepped {
    ghost table = { λ s n. stepped_table (turned s.turns n) };

    ghost loan = { λ _. [] };

    fn ask(&self, operation: u8, bounds: Bounds) -> u8 {
        let many = u64::from(bounds.longest - bounds.shortest) + 1;
        // `as` of the turns, for of a number behind a reference `u64::from` does not tell that it is below 2^32; of the step, for it is proved to fit.
        let step = (self.turns as u64 + u64::from(operation)) % many;
        bounds.shortest + step as u8
    }

    fn turn(&mut self) {
        self.turns = self.turns.wrapping_add(1);
    }
}
