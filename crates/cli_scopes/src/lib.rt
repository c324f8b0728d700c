//! Which types the rows of TypeRef mean (ECMA-335 II.22.38): each stands at the top of the references, at the top of the
//! assembly itself, or in the type of another row. The assembly that a row names isn't compared.
//!
//! ```text
//! types: 0 System.Object   1 System.Collections.Map   2 Node, in 1          rows: 0 Node, in 1   1 System.Collections.Map   2 A, in 2
//! meant: 0 is type 2   1 is type 1   2 is none, since it stands in itself
//! ```
#![tactic(auto)]

mod name;
mod refs;
#[cfg(test)]
mod tests;
mod walk;

pub use name::{TypeName, Within};
pub use refs::{Scope, TypeRef, type_refs};
pub use walk::types_meant;
