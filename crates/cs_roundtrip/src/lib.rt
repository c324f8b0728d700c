//! What is printed of a whole text is read as that text, but for its places and notes (ECMA-334, clauses 6 and 14 to 20).
//!
//! ```text
//! well formed text ── print ── bytes ── read ── the same text, and no other, and no fault
//! ```
#![tactic(auto)]

mod back;
mod laws;

pub use back::printed_and_read;
pub use laws::printed_texts_are_read;
