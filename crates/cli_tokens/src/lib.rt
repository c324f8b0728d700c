//! Whether tokens that bodies and signatures name stand for something (ECMA-335 II.22, III.1.9): a row that is there, or a user
//! string.
//!
//! ```text
//! 0600_0009 where MethodDef has eight rows        BadIndex at 0
//! 7000_0005 where no user string begins at 5      the fault of that place
//! ```
#![tactic(auto)]

mod fault;
mod first;
mod least;
#[cfg(test)]
mod tests;

pub use fault::token_fault;
pub use first::first_token_fault;
pub use least::TokenFault;
