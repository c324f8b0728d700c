//! Which instructions of some code are aims: a branch, a switch or a `leave` leads to them (ECMA-335 III.1.7.2).
#![tactic(auto)]

mod marks;
#[cfg(test)]
mod tests;

pub use marks::aimed;
