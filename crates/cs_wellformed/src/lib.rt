//! Which C# trees are well formed: those that a text says (ECMA-334, clauses 12 and 13), within the depths.
//!
//! ```text
//! names, numbers ── parts ── IsForm · IsStatement · IsBlock      with the levels and blocks of the printed text
//! ```
//!
//! A well formed tree has legal names and numbers in their ranges ([`specs/Words`]), its printed text is within the depths
//! ([`specs/Standing`], [`specs/WellFormed`]), and no member is taken of a path alone, since a path has all names behind it.
#![tactic(auto)]

mod rows;

pub use rows::levels_are_as_meant;
