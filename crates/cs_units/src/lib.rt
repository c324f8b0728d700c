//! The productions of members, types and whole texts over tokens (ECMA-334, clauses 14 to 20), stated with the parts of
//! `cs_grammar`.
//!
//! ```text
//! unit ─ namespace ─ type ─ member ─ block, expression      types stand in one another, each leaves room for one less
//!                     └──────┘
//! ```
//!
//! [`specs/Modifiers`] has what stands in front of a declaration, [`specs/Members`] members, [`specs/Declarations`] types and whole
//! texts, those of reference texts included.
#![tactic(auto)]

mod laws;
mod values;

pub use laws::{one_member, one_unit};
pub use values::{Accessed, Accessors, Implementing, Marked};
