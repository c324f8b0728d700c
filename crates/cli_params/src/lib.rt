//! The names of the parameters of methods (ECMA-335 II.22.33).
//!
//! ```text
//! Param 1: of the result, 0   2: "count", 1   3: "text", 2        a method with three parameters: count, text, and one with no name
//! ```
#![tactic(auto)]

mod names;
mod rows;
#[cfg(test)]
mod tests;

pub use names::param_names;
