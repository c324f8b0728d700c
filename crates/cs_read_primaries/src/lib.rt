//! Readers of primary expressions without parentheses (ECMA-334, 12.8), each exactly its production in `cs_productions`.
//!
//! ```text
//! name · literal · this · base.a · global::A.b · new · default · checked ─ and what stands behind each
//! ```
#![tactic(auto)]

mod nodes;
mod primaries;

pub use primaries::{
    blocks_here, called_path, of_base, of_checked, of_default, of_global, of_new, of_simple,
    ranks_here,
};
