//! Readers of statements with sections of blocks: `switch` and `try` (ECMA-334, 13.8.3, 13.11), each exactly its production in
//! `cs_statements`.
//!
//! ```text
//! switch ( head ) ─ { labels ─ block .. }
//! try ─ block ─ catch ( type ) ─ block .. ─ finally ─ block
//! ```
//!
//! The blocks in a statement are read by the level's closure, so that recursion is by the blocks that may still be opened.
#![tactic(auto)]

mod switches;
mod tries;

pub use switches::of_switch;
pub use tries::of_try;
