//! Whether the cells of rows say something (ECMA-335 II.22): a text, a blob, a row that is there, the start of a list.
//!
//! ```text
//! own rows, and the rows of other tables that are reached ─ their cells ─ the first cell that says nothing, by the row's token
//! ```
//!
//! Rows of attributes and of what else the profile passes over aren't asked.
#![tactic(auto)]

mod asked;
mod cell;
mod check;
mod fault;
mod rows;
mod table;
#[cfg(test)]
mod tests;

pub use check::{cell_rows_fit_tokens, check_cells};
pub use fault::CellFault;
pub use table::CellTable;
