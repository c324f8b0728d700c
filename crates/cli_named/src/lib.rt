//! What the rows that are reached name further (ECMA-335 II.22.25, II.22.36, II.22.38, II.22.39), as a graph of numbers.
//!
//! ```text
//! TypeRef 1 N.B, 2 in 1: C      TypeSpec 1: C[]      MemberRef 1: C.M(N.B)      StandAloneSig 1: (C[])
//! numbers   0         1                   2                    3                              4
//! they name none      0                   1                    1, 0                           2
//! ```
#![tactic(auto)]

mod laws;
mod lists;
mod numbers;
mod rows;
#[cfg(test)]
mod tests;

pub use laws::names_are_one;
pub use lists::named_rows;
pub use numbers::Numbers;
