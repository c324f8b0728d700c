//! Which references may stand where one to another type is wanted (ECMA-335 I.8.7): those to a type that derives from it
//! or has it as an interface, and by System.Array and by their elements those to arrays.
#![tactic(auto)]

mod arrays;
mod supers;

pub use arrays::assignable;
pub use supers::{Supers, is_super, supers_of};
