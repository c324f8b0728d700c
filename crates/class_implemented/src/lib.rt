//! Whether each class implements the methods of its interfaces (ECMA-335 II.12.2): it or one of its bases implements a
//! method explicitly, or has a public instance member like it.
//!
//! ```text
//! interface I { Run(); Stop(); }    class A : I { public Run() }    class B : A { public Stop() }
//! A doesn't implement I's Stop; B implements both.
//! ```
#![tactic(auto)]

mod chain;
mod explicit;
mod known;
mod marked;
mod missing;
mod passed;
mod standing;
mod walked;
mod whole;

pub use whole::interfaces_are_implemented;
