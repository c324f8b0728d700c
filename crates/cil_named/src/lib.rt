//! The tokens that a body names (ECMA-335 II.25.4, III.1.9).
//!
//! ```text
//! ldstr "a"    call M    try { .. } catch C { .. }    locals (int, N.B)        the tokens of "a", of M, of C, of the locals
//! ```
#![tactic(auto)]

mod bodies;
mod instructions;
#[cfg(test)]
mod tests;

pub use bodies::tokens_of;
pub use instructions::token_of;
