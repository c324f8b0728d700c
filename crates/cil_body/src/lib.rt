//! The body of a method (ECMA-335 II.25.4): its header, its code cut into the instructions of Partition III, and the
//! clauses on exceptions in the sections behind it.
//!
//! ```text
//! bytes ─ header ─ code ─ instructions ─ aims ─┐
//!               └─ sections ─ clauses ─────────┴─ Body
//! ```
#![tactic(auto)]

mod body;
mod code;
mod header;
mod laws;
mod section;
#[cfg(test)]
mod tests;

pub use body::{Body, Clause, ClauseKind, decode};
pub use cil_instruction::{BodyCause, BodyFault};
pub use laws::{body_has_ranges, one_body};
