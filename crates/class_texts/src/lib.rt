//! The rows of a class table that a reference text declares (ECMA-334, clauses 14 to 20): its types in their order, and their
//! members, type by type.
//!
//! ```text
//! class A { int x; int P { get; } }        type A; members x, get_P        delegate void D();        type D; members .ctor, Invoke
//! ```
#![tactic(auto)]

mod constants;
mod content;
mod members;
mod pairs;
mod parts;
mod properties;
mod row;
mod text;

pub use row::{Home, Row};
pub use text::{Rows, rows_of};
