//! Which members are alike, so that one may implement or override the other (ECMA-335 II.10.3, II.12.2), and which have a
//! name of their own.
#![tactic(auto)]

mod alike;
mod named;

pub use alike::are_alike;
pub use named::{Named, has_name, named_of};
