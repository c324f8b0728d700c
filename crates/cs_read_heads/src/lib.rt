//! Readers of statements with a head in parentheses and blocks (ECMA-334, 13.8.2, 13.9, 13.13, 13.14), each exactly its production in
//! `cs_statements`.
//!
//! ```text
//! keyword ─ ( head ) ─ block
//! ```
//!
//! The blocks in a statement are read by the level's closure, so that recursion is by the blocks that may still be opened.
#![tactic(auto)]

mod heads;
pub mod kinds;
mod tests_and_locks;

pub use heads::{of_for, of_foreach, of_using};
pub use tests_and_locks::{maybe_block, of_do, of_if, of_lock, of_while, tested};
