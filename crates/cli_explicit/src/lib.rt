//! The explicit implementations of an assembly, as pairs of members (ECMA-335 II.22.27).
//!
//! ```text
//! MethodImpl 1: body MethodDef 4, declaration MemberRef 2        the member of row 4, and the one that reference 2 means
//! ```
#![tactic(auto)]

mod meant;
mod pairs;
#[cfg(test)]
mod tests;

pub use meant::{Meant, NOTHING};
pub use pairs::explicit_of;
