//! The list columns of metadata: which rows of Field and MethodDef are a type's, which of Param a method's, which of
//! Property those of a row of PropertyMap (ECMA-335 II.22.26, II.22.35, II.22.37). Rows count from 1.
//!
//! ```text
//! Field has 5 rows; cells of TypeDef: 1 1 4      lists: of row 1 none, of row 2 the rows 1 2 3, of row 3 the rows 4 5
//! ```
#![tactic(auto)]

mod column;
mod laws;
mod lists;
mod owner;
#[cfg(test)]
mod tests;

pub use column::ListColumn;
pub use laws::{one_first_fault, stretches_one_behind_the_other};
pub use lists::{Lists, rows_fit_tokens};
pub use owner::Owner;
