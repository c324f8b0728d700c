//! What the members of the assembly itself do with slots (ECMA-335 II.10.3): by its flags a virtual method takes over the slot of
//! the nearest method like it that stands above, and has one of its own where there is none.
//!
//! ```text
//! class A { virtual newslot M }   class B : A { virtual M   virtual N }      B.M overrides A.M, and B.N is a new method
//! ```
#![tactic(auto)]

mod known;
mod overridden;
mod owners;
mod slots;
#[cfg(test)]
mod tests;
mod told;
mod walked;

pub use owners::owners_are_there;
pub use slots::settled;
