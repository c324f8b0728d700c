//! The values of constants (ECMA-335 II.22.9): which row of Constant is a field's, and what its bytes say.
//!
//! ```text
//! element 08, FE FF FF FF        -2            element 0E, 61 00        "a"            element 12, 00 00 00 00        null
//! ```
#![tactic(auto)]

mod literal;
mod owned;
#[cfg(test)]
mod tests;

pub use literal::literal_of;
pub use owned::constants_of;
