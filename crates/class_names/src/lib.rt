//! The full names of types (ECMA-335 I.10.2, ECMA-334 on fully qualified names), and whether those of the references
//! are unique.
//!
//! ```text
//! namespace A.B, type T, in it U        full names: A.B.T and A.B.T.U; namespaces: A and A.B
//! ```
#![tactic(auto)]

mod full;
mod space;
#[cfg(test)]
mod tests;
mod unique;

pub use full::full_name;
pub use unique::unique_names;
