//! Whether an instruction takes the slots of a frame, by their kinds and by what its operands name (ECMA-335 III.3, III.4).
#![tactic(auto)]

mod element;
mod member;
mod named;
mod row;

pub use element::fits_kind;
pub use row::is_taken;
