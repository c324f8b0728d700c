//! Which members references to members mean (ECMA-335 II.22.25): that of the type that is named, or of the nearest base that has
//! one, with the name and the signature.
//!
//! ```text
//! class A { void M(int) }   class B : A { void M() }        B::M(int) means A's, B::M() means B's, A::M() means none
//! ```
#![tactic(auto)]

mod asked;
mod key;
mod meant;
mod pick;
mod sign;
#[cfg(test)]
mod tests;
mod walked;

pub use key::{Shape, Sought, shape_of};
pub use meant::members_meant;
