ghost use Rattle.std.specs.Prelude.{◌≡◌, ℕ, ◌+◌, ◌≤◌, List, ◌∷◌};
ghost use Rattle.latencies.specs.Tables.{Table};

use blocks::Bounds;

pub trait Latencies {
    // What is answered after so many more turns.
    ghost table: { Self → ℕ → Table };

    // The names of what is lent.
    ghost loan: { Self → List ℕ };

    fn ask(&self, operation: u8, bounds: Bounds) -> u8
        ensures answered { result ≡ table self.now 0 operation bounds.shortest bounds.longest }
        ensures least { bounds.shortest ≤ result }
        ensures most { result ≤ bounds.longest };

    fn turn(&mut self)
        ensures turned { (n : ℕ) → table self.new n ≡ table self.old (n + 1) }
        ensures lent { loan self.new ≡ loan self.old };
}

impl<S: Latencies> Latencies for &mut S {
    ghost table = { λ s n. S.Latencies.table s.now n };

    ghost loan = { λ s. s.ghost_name ∷ S.Latencies.loan s.now };

    fn ask(&self, operation: u8, bounds: Bounds) -> u8 {
        (**self).ask(operation, bounds)
    }

    fn turn(&mut self) {
        (**self).turn();
    }
}
