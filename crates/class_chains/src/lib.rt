//! Chains of numbers, as the types above a type are: which of them end, and in which order a number stands behind
//! all those above it.
//!
//! ```text
//! ways:  0 ─ 1 ─ 3        4 ─ 5
//!        └── 2 ─┘         └───┘   4 and 5 go round for ever: the first open number is 4
//! ```
#![tactic(auto)]

mod walk;

pub use walk::above_first;
