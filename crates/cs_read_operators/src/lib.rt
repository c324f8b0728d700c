//! Readers of two-place operators and `?:` (ECMA-334, 12.10 to 12.14 and 12.18), each exactly its production in `cs_productions`.
//!
//! ```text
//! what was read before ─ two-place operators, ten levels ─ ?:
//! ```
//!
//! Each reader goes on behind a first unary expression, so that one that begins otherwise can be handed on.
#![tactic(auto)]

mod nodes;
mod operators;

pub use operators::{
    additive, and, conditional, conditional_and, equality, exclusive_or, inclusive_or,
    multiplicative, relational, shift,
};
