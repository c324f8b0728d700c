//! Whether an instruction is accepted at a frame (ECMA-335 III.1.8): the frame that it leaves, or the first rule that it
//! breaks.
#![tactic(auto)]

mod order;
mod rule;

pub use order::accept;
pub use rule::keeps;
