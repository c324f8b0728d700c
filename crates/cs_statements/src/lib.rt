//! The productions of statements and blocks over tokens (ECMA-334, clause 13), stated with the parts of `cs_grammar`.
//!
//! ```text
//! block ─ statement ─ expression ─ (lambda) ─ block      each block leaves room for one less
//! ```
//!
//! [`specs/Jumps`], [`specs/Actions`] and [`specs/Structured`] have the statements, [`specs/Blocks`] blocks within a number of blocks.
#![tactic(auto)]

mod laws;

pub use laws::{one_block, one_block_in_text, one_expression};
