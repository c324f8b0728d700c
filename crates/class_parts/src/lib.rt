//! The parts of a class table, one call each: whether the chains of bases and of outer types end (ECMA-335
//! II.10.1), and which type or member is the first at which a part fails.
#![tactic(auto)]

mod access;
mod chain;
#[cfg(test)]
mod tests;
mod up;

pub use access::accessible;
pub use chain::{Orders, orders_of};
pub use up::{base_of, derives, is_inside, outer_of};
