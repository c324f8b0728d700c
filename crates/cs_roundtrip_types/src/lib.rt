//! What is printed of types and parameters is read back.
//!
//! ```text
//! tree ── layout ── tokens, wherever they stand ── production ── the same tree, with the places of its tokens
//! ```
//!
//! [`specs/Laws`] says what it is to be read back: a production derives of the tokens a tree that is the same but for places, and a
//! list of tokens has no other answer.
#![tactic(auto)]

mod laws;

pub use laws::{params_are_read_back, types_are_read_back};
