//! A lone body: one that stands in a file of its own, has a tiny header (ECMA-335 II.25.4.2) and holds instructions on
//! four arguments and on ints alone. What each of them does is its row.
//!
//! ```text
//! bytes ─ header ─ code ─ instructions ─ balance of the stack ─ the file's end
//! ```
#![tactic(auto)]

mod laws;
mod row;
mod standalone;
#[cfg(test)]
mod tests;

pub use laws::{balance_is_a_walk, code_fills_the_file, one_cut, one_reading};
pub use row::{Row, Source, Two, size_of};
pub use standalone::{LoneFault, lone};
