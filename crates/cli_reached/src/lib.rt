//! Which rows of metadata are reached: the least set that has what the assembly's own types, members and bodies name, and
//! what each row of it names (ECMA-335 II.22).
//!
//! ```text
//! roots, and for each row the rows that it names ── for each row whether it is reached
//! ```
//!
//! Rows are numbers from 0 here. Who asks numbers the rows of its tables one table behind another.
#![tactic(auto)]

mod found;
#[cfg(test)]
mod tests;

pub use found::reached;
