//! How C# tokens are written (ECMA-334, 6.4), so that they are read as they are.
//!
//! ```text
//! token ── spelled ── its characters          gap · token · gap · token · .. · gap ── written ── a text
//! ```
//!
//! `spelled` ([`specs/Spelled`]) is the text of one token, and `needs_gap` ([`specs/Written`]) says between which two something must
//! stand. What is written so is read as just these tokens ([`written_is_read`]). The calls here write the tokens whose text isn't
//! fixed: names, numbers, characters and texts. Where memory is wanted a part of the token may have been written.
#![tactic(auto)]

mod digits;
mod quoted;
mod reading;
#[cfg(test)]
mod tests;
mod words;

pub use digits::write_number;
pub use quoted::{write_character, write_numbered, write_text};
pub use reading::written_is_read;
pub use words::write_name;
