//! What a type of the assembly itself is (ECMA-335 II.10.1, II.12 to II.14): an interface by its flag, an enum, a delegate or a
//! struct by the type that it extends, and else a class, which is static where it is both abstract and sealed.
//!
//! ```text
//! sealed, extends System.Enum, with the instance field value__ of a byte        an enum over byte
//! abstract, sealed, extends System.Object                                       a static class
//! ```
#![tactic(auto)]

mod base;
mod kind;
mod system;
#[cfg(test)]
mod tests;
mod values;

pub use base::{NOTHING, base_of, or_nothing};
pub use kind::kind_of;
pub use system::{System, system_of};
pub use values::underlying;
