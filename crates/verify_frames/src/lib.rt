//! The rules of verification that look at a frame as a whole, and at what is written once (ECMA-335 III.1.7.4, III.1.8):
//! how deep the stack is, what may stand over a jump, and stores to the receiver and to fields of constructors. Each is a
//! test that is exact.
#![tactic(auto)]

mod border;
mod depth;
mod place;
mod writing;

pub use border::{below, keeps_border};
pub use depth::{given, is_emptied, is_shallow, keeps_depth, taken};
pub use place::{are_zeros, argument, is_receiver, owner_kind, result_of};
pub use writing::{is_this, keeps_init_only, keeps_this};
