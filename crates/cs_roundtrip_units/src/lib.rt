//! What is printed of types and whole texts is read back (ECMA-334, clauses 14 to 20).
//!
//! ```text
//! well formed text ── layout ── tokens, wherever they stand ── productions ── the same text, but for places and notes
//! ```
#![tactic(auto)]

mod laws;

pub use laws::texts_are_read_back;
