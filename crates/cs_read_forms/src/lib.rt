//! Readers of parentheses, casts, lambdas, operators with one operand and whole expressions at one level (ECMA-334, 12.8.5, 12.9, 12.11
//! and 12.19), each exactly its production in `cs_productions`.
//!
//! ```text
//! operand ─ unary ─ a part of an expression ─ what begins with `global` inside parentheses
//! ```
#![tactic(auto)]

mod leads;
mod nodes;
mod parentheses;
mod whole;

pub use leads::lead;
pub use parentheses::{operand, plain_unary, unary};
pub use whole::form;
