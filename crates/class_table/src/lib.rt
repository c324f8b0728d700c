//! Types and members by their numbers, checked once to make a class table (ECMA-335 II.8, II.10), and what is asked of it
//! afterwards: its rows, which types go where, and what may be named from where. None of this takes memory.
//!
//! ```text
//! build: chains end, names are unique, members are unique, bases are there, core types are there, interfaces are
//! implemented; the fault is that of the first of these that fails, at the least number at which it does
//! ```
#![tactic(auto)]

mod buildable;
mod known;
mod parts;
mod table;
#[cfg(test)]
mod tests;

pub use buildable::is_buildable;
pub use table::{ClassTable, TableRows, build};
