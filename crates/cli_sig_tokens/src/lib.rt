//! The tokens that the types of signatures name (ECMA-335 II.23.2), and types by themselves, as rows of TypeSpec have them.
//!
//! ```text
//! 20 02 01 12 05 0E     void (N.B, string): the token of N.B           1D 12 05     N.B[], a type by itself
//! ```
#![tactic(auto)]

mod laws;
mod spec;
#[cfg(test)]
mod tests;
mod tokens;

pub use laws::one_list;
pub use spec::type_spec;
pub use tokens::{field_tokens, local_tokens, method_tokens, property_tokens, spec_tokens};
