//! What is printed of expressions and blocks is written well, and the text is read back (ECMA-334, clauses 6, 12 and 13).
//!
//! ```text
//! well formed block ── layout ── a text ── its tokens ── the same block, and nothing else
//! ```
//!
//! Between neighbouring tokens of a layout stands a gap where they need one ([`specs/Sound`]), so the text has just these tokens. That
//! tokens of a layout are the same tree is a law of the crate below.
#![tactic(auto)]

mod laws;

pub use laws::{
    blocks_are_written_well, expressions_are_written_well, printed_blocks_are_read_back,
    printed_expressions_are_read_back,
};
