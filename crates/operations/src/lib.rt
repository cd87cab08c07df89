// Operations: what an operation reads, writes and does, and why a call is refused.
#![tactic(auto)]

mod access;
mod effect;
mod operation;
mod raw;
mod refusal;
mod targets;
#[cfg(test)]
mod tests;
mod text;
mod typing;

pub use access::{Class, Reads, Writes};
pub use effect::Effect;
pub use operation::{Form, Operation, Source};
pub use raw::{Opcode, Operand, RawOperation, UpToTwo};
pub use refusal::{Dependence, Refusal, Violation};
pub use targets::{Target, Targets};
