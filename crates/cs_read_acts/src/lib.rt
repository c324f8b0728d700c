//! Readers of assignments and calls as statements, and of statements that begin with a name (ECMA-334, 12.21, 13.5, 13.6.2, 13.7),
//! each exactly its production in `cs_statements`.
//!
//! ```text
//! name · global ─┬─ label
//!                ├─ declaration by a type's path
//!                └─ place or call ─ what is done to it
//! ```
#![tactic(auto)]

mod actions;
mod paths;

pub use actions::{action_to, named_statement, primary_act};
pub use paths::global_statement;
