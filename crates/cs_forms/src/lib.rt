//! How expressions and statements of C# are printed: just as `specs/Layout` of `cs_layout` says.
//!
//! ```text
//! write_form ── write_arguments ── .. ── a lambda's block ── write_block ── write_syntax ── write_form
//! ```
//!
//! An expression may hold a lambda and so statements: all calls are one cycle. Where memory is wanted a part may have been written.
#![tactic(auto)]

mod expressions;
mod statements;

pub use expressions::{write_arguments, write_form};
pub use statements::{write_action, write_block, write_syntax};
