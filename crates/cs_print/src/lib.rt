//! How members, types and whole texts of C# are printed: just as the specs of `cs_unit_layout` say.
//!
//! ```text
//! print ── assembly line ── namespaces ── types ── print_member's part of each member ── its block, by cs_forms
//! ```
//!
//! Printing appends: no text is copied to be indented.
#![tactic(auto)]

mod members;
#[cfg(test)]
mod tests;
mod texts;
mod units;

pub use texts::{print, print_member};
