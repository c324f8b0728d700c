//! C# texts as lists of tokens with their places (ECMA-334, 6.3 and 6.4).
//!
//! ```text
//! bytes ── text_of ── text ── cut ── tokens, up to the text's end or the first place where none stands
//!                         └── lex ── tokens, or that place
//! ```
//!
//! What a token is stands in the crate cs_token. Here a text is gone through twice: once to count its tokens, and once by a [`Cursor`],
//! which cuts each token when it is reached. So no list of tokens is ever kept. Lines and columns count from 1, columns in
//! characters; a newline ends a line. A text has at most 2^31 bytes, so that the place of a token is in 32 bits.
//!
//! The readers of productions are made of [`begins`], [`expect`], [`take_one`] and [`limit`].
#![tactic(auto)]

mod bytes;
mod cursor;
mod cuts;
mod places;
mod reader;
#[cfg(test)]
mod tests;
mod whole;

pub use bytes::text_of;
pub use cursor::Cursor;
pub use cuts::{End, Tokens, cut};
pub use reader::{begins, expect, limit, take_one};
pub use whole::{LexFault, Lexed, lex, one_answer};
