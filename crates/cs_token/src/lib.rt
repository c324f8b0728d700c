//! The tokens of C# texts (ECMA-334, 6.3 and 6.4), from a text's characters on.
//!
//! ```text
//! text ─ gap ─ token ─ gap ─ token ─ .. ─ gap     Cuts, AreTokens
//! token: name · keyword · number with its suffix · character · text in quotes · sign
//! ```
//!
//! `token_at` ([`specs/Tokens`]) says which token a text begins with, and what stands behind it. So a text is cut into tokens in one
//! way ([`one_cut`]). [`behind_gap`] passes over what stands between tokens, and [`Token::first`] reads the token that a text
//! begins with. A [`Token`] owns nothing: it names the place in the text where it stands, and is what grammars are made over, by
//! its kind. Its value, a [`Lexeme`], is made where it is asked for.
#![tactic(auto)]

mod fronts;
mod gaps;
mod lexeme;
mod numbers;
mod pieces;
mod quotes;
mod signs;
mod tokens;
mod words;

pub use fronts::{before, split_first};
pub use gaps::behind_gap;
pub use lexeme::{Lexeme, Suffix};
pub use tokens::{Token, one_cut};
