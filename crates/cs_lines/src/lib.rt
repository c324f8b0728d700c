//! Margins and lines of C# texts, and what of expressions and statements holds no other expression: just as `specs/Layout` of
//! `cs_layout` says.
//!
//! ```text
//! margin ── write_indent, write_head ── a text ── write_end ── newline
//! ```
//!
//! A margin is the blanks before a line, four for each level. Where memory is wanted a part may have been written.
#![tactic(auto)]

mod levels;
mod lines;
mod parts;

pub use levels::{
    CAST, NEW_ARRAY, PRIMARY, RELATIONAL, UNARY, is_lambda, is_minus, is_minus_op, level,
};
pub use lines::{deeper, write_end, write_head, write_indent, write_line};
pub use parts::{
    write_base_member, write_default, write_global, write_goto, write_labels, write_maybe_name,
    write_named, write_typed,
};
