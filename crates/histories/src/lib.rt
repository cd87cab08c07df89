// The theory of the histories of places. Each function's contract is a theorem; the functions compute nothing.
#![tactic(auto)]

mod examples;
mod orders;
mod schedules;

pub use examples::{scheduled_example, serial_is_kept, written_example};
pub use orders::{history_names_accesses, history_shows_order, order_decides_history};
pub use schedules::{broken_always_shows, kept_is_always_same, kept_is_whole_same};
