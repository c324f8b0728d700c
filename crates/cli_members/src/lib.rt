//! Which rows of Field and MethodDef are members of own types (ECMA-335 II.22.15, II.22.26): first the fields by their rows, then
//! the methods by theirs. The instance field of an enum is no member. A method is what the rows of MethodSemantics make it.
//!
//! ```text
//! Field 1: the instance field of an enum   2: a constant of it   3: a field        MethodDef 1: .ctor   2: get_P, of a property
//! members: 0 the constant   1 the field   2 a constructor   3 a getter
//! ```
#![tactic(auto)]

mod named;
mod numbers;
mod roles;
#[cfg(test)]
mod tests;

pub use named::member_of;
pub use numbers::{Owned, member_fields, member_methods};
pub use roles::{Role, roles_of};
