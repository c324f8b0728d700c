//! Readers of single tokens, paths, types and parameters (ECMA-334, 6.4, 7.8, 8 and 15.6.2), each exactly its production in
//! `cs_productions`.
//!
//! ```text
//! Cursor ─ words (one token) ─ path ─ type ─ parameter
//! ```
//!
//! A reader answers what its production reads: the value, and the tokens behind it are left; or the fault, and the tokens from it on
//! are left. Want of memory is the one answer that the production knows nothing of.
#![tactic(auto)]

pub mod kinds;
mod leaves;
mod types;
mod words;

pub use leaves::{binary, global_leaf, operator, simple, unary};
pub use types::{
    more_params, named_type, param, passed_param, path, ranks, ty, type_of_keyword, way,
};
pub use words::{any_name, name_text, place, spot, text};
