//! A whole C# text, or a reference text, as its tree, or its first fault (ECMA-334, 6.3, 6.4 and 14.2).
//!
//! ```text
//! text ── cs_lex ── tokens ── cs_read_units, or cs_read_references ── tree
//!           └── Lex                     └── Parse, Deep
//! ```
//!
//! [`specs/Texts`] says what a text is read as, over its tokens and the grammar alone. A text has one answer ([`one_text`], [`one_reference`]): a tree,
//! or a fault at the first token with which no text of the grammar goes on, or at the place where no token stands. Where both stand at
//! one place, it is the fault of the tokens.
//!
//! The expressions and blocks of members are read by the closure of a [`Level`].
//!
//! [`Level`]: cs_read_calls::Level
#![tactic(auto)]

mod fault;
mod laws;
mod read;

pub use fault::ReadFault;
pub use laws::{one_reference, one_text};
pub use read::{reference_of_text, unit_of_text};

#[cfg(test)]
mod tests;
