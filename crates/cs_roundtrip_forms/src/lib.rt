//! What is printed of expressions without lambdas is read back (ECMA-334, clause 12).
//!
//! ```text
//! well formed expression ── layout ── tokens, wherever they stand ── productions ── the same expression, and nothing else
//! ```
//!
//! Each production of the grammar has a lemma, in `proofs/`, that the layout of its form is read by it where its parts are read. What may
//! stand behind an expression is part of what is said of it ([`specs/Standing`], [`specs/Reading`]): at its level more operators, behind a
//! primary expression members and elements. The lemmas on lambdas, and `form_read`, which puts all of them together, serve the crate above,
//! where blocks are read.
#![tactic(auto)]

mod laws;

pub use laws::expressions_are_read_back;
