//! The conditions of the profile: what an assembly meets, besides being well formed, so that it can be decompiled.
//!
//! They stand in one order, which decides where an assembly fails several: of those that are asked of one row, or of one
//! place in a method, the first counts. A refusal prints a condition by its name.
//!
//! ```text
//! 1 to 10 rows of tables · 11 to 26 types and members · 27 to 32 bodies of methods
//! ```
#![tactic(auto)]

mod condition;
mod laws;
#[cfg(test)]
mod tests;
mod unmet;

pub use condition::Condition;
pub use laws::one_number;
pub use unmet::Unmet;
