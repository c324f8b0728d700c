//! Which methods are the accessors of a property (ECMA-335 II.22.28, II.22.34).
//!
//! ```text
//! MethodSemantics 1: getter, MethodDef 4, Property 1    2: setter, MethodDef 5, Property 1
//! getters: 4      setters: 5      others: none
//! ```
#![tactic(auto)]

mod parts;
#[cfg(test)]
mod tests;

pub use parts::{Part, accessors_of};
