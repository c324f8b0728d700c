//! What is printed of members and whole texts is written well, and the text is read back (ECMA-334, clauses 6 and 14 to 20).
//!
//! ```text
//! well formed text ── layout ── a text in UTF-8 ── its tokens ── the same text, but for places and notes, and nothing else
//! ```
//!
//! A note stands in a comment on a line of its own, which the tokens pass over. So a layout is lines ([`specs/Lines`]): behind a gap they
//! are written well, and behind them stands a gap. That tokens of a layout are the same tree is a law of the crates below.
#![tactic(auto)]

mod laws;

pub use laws::{
    members_are_written_well, printed_members_are_read_back, printed_texts_are_read_back,
    texts_are_written_well,
};
