//! The types that a reference text declares, as rows of a class table, and what a type that is written in it means
//! (ECMA-334, clauses 8 and 14 to 20).
//!
//! ```text
//! declared types ─ index of their full names ─ written types ─ rows of types: kind, access, base, interfaces
//! ```
#![tactic(auto)]

mod forms;
mod kinds;
mod rows;
mod types;

pub use forms::void;
pub use rows::{Above, access_or, access_within, type_row};
pub use types::Types;
