//! What is printed of expressions and blocks is read back (ECMA-334, clauses 12 and 13).
//!
//! ```text
//! well formed block ── layout ── tokens, wherever they stand ── productions ── the same block, and nothing else
//! ```
//!
//! Each production of statements has a lemma, in `proofs/`, that the layout of its statement is read by it where its parts are read. They
//! are put together by one induction over well formed expressions, statements and blocks, since lambdas hold blocks.
#![tactic(auto)]

mod laws;

pub use laws::{
    blocks_are_read_back, blocks_of_texts_are_read_back, expressions_with_lambdas_are_read_back,
};
