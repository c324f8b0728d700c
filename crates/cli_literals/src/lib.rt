//! The constants of fields (ECMA-335 II.22.9): a field that is a literal has exactly one, which fits its type, and no constant
//! of a field is a float.
//!
//! ```text
//! element 02 to 0B     a bool, a char or an integer, and an enum over it
//! element 0E           a text, for a string
//! element 12           null, for a reference
//! ```
#![tactic(auto)]

mod bad;
mod fields;
mod floats;
mod takes;
#[cfg(test)]
mod tests;

pub use bad::first_bad_constant;
pub use fields::Fields;
pub use takes::fits;
