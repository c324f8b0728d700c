//! Reference texts: the types and members that an assembly refers to, as the class table that they make, or the first fault
//! (ECMA-334, clauses 14 to 20; ECMA-335 II.8, II.10).
//!
//! ```text
//! text ── cs_read_texts ── tree ── class_texts ── rows ── class_table ── table
//!              └── Read(Lex, Parse, Deep)                   └── Types(..)
//! ```
//!
//! [`specs/References`] says what a text is, over its tokens, the grammar, the rows that its tree declares and what makes rows a
//! table. A text has one answer ([`one_table`]). Its own faults come before those of the table.
//!
//! [`CORE`] is a text that has all core types: what users may start from.
#![tactic(auto)]

mod core_text;
mod fault;
mod laws;
mod reading;

pub use core_text::CORE;
pub use fault::RefFault;
pub use laws::{one_table, texts_are_buildable, types_stand_behind_theirs};
pub use reading::references;

#[cfg(test)]
mod tests;
