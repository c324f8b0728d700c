//! What a verifier knows of the stack before an instruction (ECMA-335 III.1.8.1): a frame, which has a slot for each value,
//! and which frame holds another.
//!
//! ```text
//! Int   any set that holds it   Other
//!  │        │                  ┌──┴──┐        and each other slot holds itself alone
//! Truth  Refs(set, mark)     This  Fresh
//! ```
//!
//! Where ways meet, the frames that come are united: to the least frame that holds both.
#![tactic(auto)]

mod laws;
mod meet;
mod set;
mod slot;

pub use laws::{frames_are_in_order, united_frames_are_one};
pub use meet::{unite, united_slot};
pub use slot::{Mark, Slot, Tested};
