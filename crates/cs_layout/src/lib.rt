//! How C# trees are laid out as texts: four blanks a level, braces on lines of their own, the fewest parentheses.
//!
//! ```text
//! tree ── form_shown, syntax_laid ── gaps and tokens ── followed ── a text's bytes
//! ```
//!
//! [`specs/Layout`] says of which tokens and gaps each form of tree is printed, and [`specs/Words`] how tightly expressions bind. What
//! is laid out is tokens that are written with gaps ([`laid_is_written`]). The calls here write what holds no expression: fixed parts,
//! operators, names, paths, types, literals and parameters. Where memory is wanted a part of it may have been written.
#![tactic(auto)]

mod fixed;
mod operators;
mod reading;
#[cfg(test)]
mod tests;
mod words;

pub use fixed::{Fixed, write_fixed};
pub use operators::{binary_level, write_assign, write_binary, write_unary};
pub use reading::laid_is_written;
pub use words::{
    write_comma, write_literal, write_name, write_params, write_path, write_ranks, write_type,
    write_type_name, write_way,
};
