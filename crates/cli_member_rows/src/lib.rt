//! The fields and methods of the assembly itself as rows of a class table (ECMA-335 II.22.15, II.22.26): their types are those
//! that their signatures say, a constant has the value of its row of Constant, and an accessor of a property is what its row of
//! MethodSemantics makes it. Each method that can take over a slot does so here.
//!
//! ```text
//! Field 2: literal, of I4, Constant 08 05 00 00 00        row: a field with the literal 5, of int
//! MethodDef 2: get_P, signature 20 00 08                  row: a getter without parameters, of int
//! ```
#![tactic(auto)]

mod fields;
mod methods;
mod sigs;
#[cfg(test)]
mod tests;

pub use fields::field_rows;
pub use methods::method_rows;
pub use sigs::{MethodTypes, field_type, method_types, nothing_type};
