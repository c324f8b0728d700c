//! A walk over the tree of bases, and what stands open on its way.
//!
//! ```text
//! class A   class B : A   class C : B   class D : A        Enter A  Enter D  Leave D  Enter B  Enter C  Leave C  Leave B  Leave A
//! ```
#![tactic(auto)]

mod ring;
#[cfg(test)]
mod tests;
mod walk;

pub use walk::{Step, walk_of};
