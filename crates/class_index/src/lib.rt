//! The members of a class table by their type and their name (ECMA-335 II.22.15, II.22.26).
//!
//! ```text
//! members:  0 B.Run   1 A.get_Size   2 A.Run   3 A.Size(int)   4 A.Run(int)
//! index:    A: Run 2, Run 4, Size 1, Size 3   B: Run 0        an accessor goes by its property's name
//! ```
#![tactic(auto)]

mod index;
mod name;
#[cfg(test)]
mod tests;

pub use index::MemberIndex;
pub use name::known_name;
