//! Which rows of an assembly are reached from what its types, members and bodies name (ECMA-335 II.22). Rows that nothing
//! names, such as those of attributes alone, need not be understood.
//!
//! ```text
//! a body: call MemberRef 1 ── of TypeRef 2 ── in TypeRef 1           TypeRef 3: of an attribute
//!                    reached          reached       reached                  not reached
//! ```
#![tactic(auto)]

mod assembly;
mod marks;
#[cfg(test)]
mod tests;

pub use assembly::rows_of_assembly;
pub use marks::reached_rows;
