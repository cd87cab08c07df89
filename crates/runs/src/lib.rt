// The theory of runs. Each function's contract is a theorem; the functions compute nothing.
#![tactic(auto)]

mod assumptions;
mod cells;
mod examples;
mod marks;
mod schedules;
mod written_order;

pub use assumptions::assumptions_are_met;
pub use cells::{cells_run_alike, lands_in_one_pass};
pub use examples::example_runs;
pub use marks::{marks_as_written, marks_in_any_schedule};
pub use schedules::runs_in_any_schedule;
pub use written_order::{always_ends_as_written, runs_as_written};
