//! The productions of C# texts over tokens (ECMA-334, clauses 12 and 13), stated with the parts of `cs_grammar`.
//!
//! ```text
//! tokens ─ type · path ─ primary ─ unary ─ two-place, ten levels ─ ?:      within a number of levels
//! ```
//!
//! [`specs/Kinds`] names the kinds of tokens, [`specs/Types`] has types, paths and parameters, [`specs/Primaries`] what stands
//! without an operator in front, [`specs/Operators`] casts, unary operators and the levels of two-place ones.
#![tactic(auto)]

mod laws;
mod values;

pub use laws::{one_param, one_type};
pub use values::{Args, Lead, Measured, Part};
