//! What the types and members of the assembly itself name (ECMA-335 II.22): from there, and from bodies, rows are reached.
//!
//! ```text
//! class A : N.B, I { N.C f; void M(N.D d) }       the tokens of N.B, I, N.C, N.D
//! ```
#![tactic(auto)]

mod own;
mod rows;

pub use own::{Own, own_tokens};
