//! The types that a look-up in a type goes through, each once: the type and its base chain, and for an interface then the
//! interfaces that it names, in turn, and last System.Object (ECMA-335 I.8.10.4; ECMA-334 on member look-up).
//!
//! ```text
//! class B : A               in B: B A Object
//! interface I : J, K        in I: I J L K Object        where J : L    K : L
//! ```
#![tactic(auto)]

mod interfaces;
mod search;

pub use search::{Search, search_in};
