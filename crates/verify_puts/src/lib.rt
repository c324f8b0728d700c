//! Whether what an instruction puts into places fits them (ECMA-335 III.1.8.1.2): by its kind, as a truth, and by its type.
#![tactic(auto)]

mod fit;
mod law;
mod place;
mod puts;

pub use fit::{Fit, fits};
pub use law::parts_are_all;
pub use place::{arguments, this_depth};
pub use puts::puts_fit;
