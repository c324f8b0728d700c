//! The types that signatures say (ECMA-335 II.23.2): what is read of a blob, by what the tokens of types mean.
//!
//! ```text
//! 1D 1D 08             int[][]                        12 05, where row 1 of TypeRef is a class      that class
//! 10 0E                a place of a string            11 05, where it is a class                    nothing
//! ```
#![tactic(auto)]

mod meaning;
#[cfg(test)]
mod tests;
mod types;

pub use meaning::{all_types, type_said};
pub use types::{Tokens, Types};
