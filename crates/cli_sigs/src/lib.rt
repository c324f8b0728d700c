//! The signatures of an assembly, asked row by row (ECMA-335 II.22, II.23.2): the first row that has none, by its token.
//!
//! ```text
//! Field, MethodDef, Property               each row
//! MemberRef, StandAloneSig, TypeSpec       each row that is reached
//! 20 02 01 1C 18                           nothing is wrong with it as the constructor of a delegate
//! ```
#![tactic(auto)]

mod blob;
mod check;
mod form;
mod laws;
mod refusal;
mod single;
mod subject;
mod table;
#[cfg(test)]
mod tests;

pub use check::{check_signatures, sig_rows_fit_tokens};
pub use laws::one_first_refusal;
pub use refusal::{SigCause, SigRefusal};
