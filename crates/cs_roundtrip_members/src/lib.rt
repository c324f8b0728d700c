//! What is printed of members is read back (ECMA-334, clause 15).
//!
//! ```text
//! well formed member ── layout ── tokens, wherever they stand ── productions ── the same member, but for places and notes
//! ```
#![tactic(auto)]

mod laws;

pub use laws::members_are_read_back;
