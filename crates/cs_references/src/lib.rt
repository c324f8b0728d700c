//! The productions of reference texts over tokens (ECMA-334, clauses 14 to 20): types and members without what they do, stated with
//! the parts of `cs_grammar`.
//!
//! ```text
//! text ─ namespace ─ type ─ member        types stand in one another, each leaves room for one less
//!                     └──────┘
//! ```
//!
//! [`specs/Members`] has members, which end with `;` where a source has blocks, [`specs/Declarations`] types and whole texts.
#![tactic(auto)]

mod laws;

pub use laws::one_reference_text;
