//! The types of the assembly itself as rows of a class table (ECMA-335 II.22.23, II.22.37). Row 1 of TypeDef, for what stands in
//! no type, is none of them.
//!
//! ```text
//! TypeDef        1 <Module>   2 N.C   3 N.I        InterfaceImpl   1 class 2, interface 3
//! rows                        N.C { bases: N.I }   N.I { bases: none }
//! ```
#![tactic(auto)]

mod interfaces;
mod row;
#[cfg(test)]
mod tests;

pub use interfaces::interfaces_of;
pub use row::{Own, own_type_rows};
