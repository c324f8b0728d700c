//! A C# text as its tree, or its first fault (ECMA-334, 6.3, 6.4 and 14.2), within the depths of a text.
//!
//! ```text
//! text ── cs_read_texts ── tree, or Lex, Parse, Deep at a line and a column
//!              └── expressions and blocks at each depth: cs_read_levels
//! ```
//!
//! [`read`] is all that the crates above call. What it answers is stated over the text's tokens and the grammar alone, in `cs_read_texts`
//! ([`specs/Texts`]), and the depths of a text are in [`specs/Depths`]. A text has one such answer and no other ([`one_text`]).
#![tactic(auto)]

mod text;

pub use cs_read_texts::{ReadFault, one_text};
pub use text::read;

#[cfg(test)]
mod tests;
