//! The frame that an instruction leaves (ECMA-335 III.3 and III.4, the stack transitions).
#![tactic(auto)]

mod array;
mod number;
mod object;
mod place;
mod result;
mod row;

pub use result::leaves;
