//! Frames where ways meet, united so that each set of types still names each type once (ECMA-335 III.1.8.1.3).
//!
//! ```text
//! Refs(a b, This) ─┐
//!                  ├─ Refs(a b c, Other)
//! Refs(b c, Fresh) ┘
//! ```
#![tactic(auto)]

mod meet;
mod set;
#[cfg(test)]
mod tests;

pub use meet::{join, joined_slot};
