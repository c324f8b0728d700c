//! The types of a loaded assembly (ECMA-335 II.22): its name, its class table, what its tokens mean, and the bodies of
//! its methods. It has no logic but look-up: who makes one of an image says what holds of it.
#![tactic(auto)]

mod assembly;
mod meaning;

pub use assembly::{Assembly, PropertyRow};
pub use meaning::{Named, meaning_of, tokens_mean};
