//! Readers of all statements, and of blocks (ECMA-334, 13.3), each exactly its production in `cs_statements`.
//!
//! ```text
//! block ─ statements ─┬─ without a block (cs_read_actions, cs_read_acts)
//!                     ├─ if, while, do, for, foreach, using, lock (cs_read_heads) ─ their blocks
//!                     └─ switch, try (cs_read_sections) ─ their blocks
//! ```
//!
//! The blocks in a statement are read by the level's closure, so that recursion is by the blocks that may still be opened.
#![tactic(auto)]

mod blocks;

pub use blocks::{block, empty_block, statement};
