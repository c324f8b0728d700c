//! Members that stand open on a walk over the tree of bases, by what members alike have in common, so that the innermost one
//! that is alike to a member is found in place.
//!
//! ```text
//! class A { M(int)  N }   class B : A { M(int) }      open below B:   M(int): B.M, A.M    N: A.N
//! ```
#![tactic(auto)]

mod alike;
mod open;
mod sign;

pub use alike::innermost_alike;
pub use open::{Open, closed, none_open, opened};
pub use sign::signs_of;
