//! The first reference that is reached and means nothing (ECMA-335 II.22.25, II.22.38). What is only named by attributes isn't
//! reached, and so needs no reference.
//!
//! ```text
//! TypeRef 1: found   2: not found, not reached   3: not found, reached        01000003
//! ```
#![tactic(auto)]

mod lost;
#[cfg(test)]
mod tests;

pub use lost::first_lost;
