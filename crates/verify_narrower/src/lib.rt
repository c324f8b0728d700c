//! That what accepts a frame accepts each frame in it (ECMA-335 III.1.8.1.2.3): so where a method has frames, it has least
//! ones.
#![tactic(auto)]

mod law;

pub use law::narrower_frames_are_accepted;
