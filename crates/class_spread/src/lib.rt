//! The interfaces of each type, in the order in which a look-up goes through them: each that the type names, directly
//! followed by those that this one names in the same way, each once where it occurs first (ECMA-335 I.8.10.4).
//!
//! ```text
//! A : B, C    B : D    C : E, D        A: B D C E
//!                                      B: D           C: E D
//! ```
#![tactic(auto)]

mod among;
mod spread;

pub use among::is_among;
pub use spread::{Spread, spread_at, spreads_of};
