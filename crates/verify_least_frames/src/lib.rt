//! That a verified method has least frames (ECMA-335 III.1.8.1): each in that of every other choice.
//!
//! ```text
//! verify_narrower ─ what accepts a frame accepts each in it ─┐
//! verify_least ── maps of a flow ────────────────────────────┴─ least frames
//! ```
#![tactic(auto)]

mod law;

pub use law::least_frames_exist;
