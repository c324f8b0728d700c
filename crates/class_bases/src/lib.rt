//! The types that others name (ECMA-335 II.10.1, II.22.37): whether bases and interfaces are there and fit, whether what
//! members of the references name is there, and whether the types of the namespace System that each table has are.
#![tactic(auto)]

mod bound;
mod member;
mod needed;
mod system;
#[cfg(test)]
mod tests;

pub use bound::bases_are_there;
pub use needed::core_is_there;
pub use system::system_types;
