//! The slots of virtual methods: of each member the one that introduced the method that it overrides (ECMA-335 II.10.3).
//!
//! ```text
//! class A { virtual M }   class B : A { override M }   class C : B { override M }     the slot of each of the three is A.M
//! ```
#![tactic(auto)]

mod known;
mod overridden;
mod slots;
mod walked;

pub use slots::{slot, slots_of};
