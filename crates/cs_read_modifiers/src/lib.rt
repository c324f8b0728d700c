//! Readers of what stands in front of a declaration (ECMA-334, 15.3.5 and 15.3.6), each exactly its production in `cs_units`.
//!
//! ```text
//! modifiers ─ access (public, private protected ..) · one word each      and what they say of the declaration behind them
//! ```
#![tactic(auto)]

pub mod kinds;
mod marks;

pub use marks::{flag, is_only_static, is_unmarked, modifiers, start};
