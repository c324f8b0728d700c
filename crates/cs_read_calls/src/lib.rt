//! Readers of arguments, and of members, calls and elements behind an expression (ECMA-334, 12.6.2, 12.8.7, 12.8.10, 12.8.12), each
//! exactly its production in `cs_productions`.
//!
//! ```text
//! Level: where we are, and the reader of what stands one level lower
//!   └─ arguments · members, calls and elements      each answers what its production reads
//! ```
//!
//! What stands one level lower (the parts of an operator, the block of a lambda) is read by a closure, so that each reader here is
//! proved on its own, and recursion is by the levels that are left alone.
#![tactic(auto)]

mod calls;
mod level;
mod nodes;

pub use level::{Ask, Depth, Got, Level};
pub use nodes::{OnHeap, element, held, leaf, raised, raised_call, too_deep};
