//! Readers of expressions and blocks at each depth (ECMA-334, 12.4 and 13.3), each exactly its production in `cs_productions` and
//! `cs_statements`.
//!
//! ```text
//! at a depth ─ its Level ─ below: one level lower in an expression, or one block deeper
//! ```
//!
//! Here the readers of the layers below are tied to one another. A call goes down by the blocks that may still be opened, and in a
//! block by the levels that are left.
#![tactic(auto)]

mod below;
mod last;

pub use below::{block, expression, read_below};
